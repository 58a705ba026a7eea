//! The answers of the commands `view` and `session`.
#![tactic(auto)]

mod laws;
mod place_text;
mod session;
mod view;
mod view_text;
mod viewer;

pub use laws::reply_views_laws;
pub use session::reply_session;
pub use view::reply_view;
pub use view_text::{push_element, push_module};
pub use viewer::push_bytes;

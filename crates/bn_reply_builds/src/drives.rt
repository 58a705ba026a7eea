//! Laws on drives. The function does nothing: its contract is the laws.
ghost use Rattle.bn_reply_builds.specs.DriveLaws.{Laws};

/// The laws on the answers of the command `drive` (this project's own profile), a named field each. Steps are element
/// steps.
pub fn drive_laws()
    ensures { Laws }
{}

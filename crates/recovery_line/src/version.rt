// The version of the interface, so that a program can tell an archive that does not belong to its header.
ghost use Rattle.std.specs.Prelude.{◌≡◌};
ghost use Rattle.recovery_line.specs.Version.{version};

pub const VERSION: u32 = 5;

// The number that the header of this archive has as RECOVERY_LINE_VERSION.
pub fn recovery_line_version() -> u32
    ensures { result ≡ version }
{
    VERSION
}

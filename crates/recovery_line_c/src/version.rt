// The version of the interface, so that a program can tell an archive that does not belong to its header.
ghost use Rattle.std.specs.Prelude.{◌≡◌};
ghost use Rattle.recovery_line.specs.Version.{version};

// The number that the header of this archive has as RECOVERY_LINE_VERSION.
#[unsafe(no_mangle)]
pub extern "C" fn recovery_line_version() -> u32
    ensures { result ≡ version }
{
    recovery_line::version::recovery_line_version()
}

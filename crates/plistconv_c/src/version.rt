//! The version of the library.
ghost use Rattle.std.specs.Prelude.{◌≡◌};

/// Returns the version of the library as a number: 10,000 * major + 100 * minor + patch.
#[unsafe(no_mangle)]
pub extern "C" fn plistconv_version() -> u32
    ensures { result ≡ 300 }
{
    300
}

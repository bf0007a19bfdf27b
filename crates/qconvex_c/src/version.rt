//! The version of the library.
ghost use Rattle.std.specs.Prelude.{◌≡◌};
ghost use Rattle.qconvex_c.specs.declared.version.TheConstants.{VERSION};

/// The version as one number: 10000 times the major number, 100 times the minor one, and the patch's.
pub const VERSION: u32 = 200;

/// Returns the version of the library that is linked or loaded, which may differ from that of the header.
#[unsafe(no_mangle)]
pub extern "C" fn qconvex_version() -> u32
    ensures { result ≡ VERSION }
{
    self::VERSION
}

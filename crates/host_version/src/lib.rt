// The version of the library, so that a host can tell whether the header that it was compiled with is this library's.
ghost use Rattle.std.specs.Prelude.{◌≡◌};
ghost use Rattle.host_version.specs.Version.{left, version_leaves};

// 1,000,000 times the first part, 1,000 times the second, and the third: this is 0.2.0.
pub const VERSION: u32 = 2000;

#[unsafe(no_mangle)]
pub extern "C" fn ambrulicciu_version(version: &mut [u32; 1]) -> u8
    ensures { left result version.new ≡ version_leaves }
{
    *version = [VERSION];
    0
}

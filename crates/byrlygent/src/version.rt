// The number of the interface that the archive exports: a program that was written for another one must not call it.
ghost use Rattle.std.specs.Prelude.{◌≡◌};
ghost use Rattle.byrlygent.specs.Version.{abi_version};

// The interface of this archive. It is raised by each change of an exported function's parameters or of what it returns.
const ABI_VERSION: u32 = 5;

// The interface's number. This function itself stays as it is.
#[unsafe(no_mangle)]
pub extern "C" fn byr_abi_version() -> u32
    ensures { result ≡ abi_version }
{
    ABI_VERSION
}

// Which form of the C interface this is: the number that include/axml.h has as AXML_ABI. Definition: specs/Abi.antt.
ghost use Rattle.std.specs.Prelude.{◌≡◌};
ghost use Rattle.c_api.specs.Abi.{abi};

// A program that was compiled against another number than this function answers must not call anything else.
#[unsafe(no_mangle)]
pub extern "C" fn axml_abi() -> u32
    ensures { result ≡ abi }
{
    11
}

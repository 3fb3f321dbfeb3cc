//! The script of a made patch.

ghost use Rattle.std.specs.Prelude.{◌≡◌, ◌++◌, ◌≤◌, ◌*◌, decimal, IfOk, OnOk};
ghost use Rattle.pd_made.specs.Scripts.{voice_records, made_script};

use itoa::Buffer;
use std::alloc::{AllocError, Global};

/// The script of the made patch of so many voices.
pub fn make_script(alloc: Global, n: u32) -> Result<Vec<u8>, AllocError>
    ensures { IfOk result (λ s. s.items ≡ made_script n) }
{
    let mut script = Vec::new(alloc);
    for voice in 0..n {
        push_records(u64::from(voice) + 1, &mut script)?;
    }
    script.extend_from_slice(b"0 end;\n")?;
    Ok(script)
}

/// Puts the records of a voice last.
fn push_records(voice: u64, script: &mut Vec<u8>) -> Result<(), AllocError>
    requires { voice ≤ 4294967295 }
    ensures { OnOk result (script.new.items ≡ script.old.items ++ voice_records voice) }
{
    let mut buffer = Buffer::new();
    let number = buffer.format(2 * voice).as_bytes();
    script.extend_from_slice(b"1 edit . / disconnect ")?;
    script.extend_from_slice(number)?;
    script.extend_from_slice(b" 0 0 0;\n")?;
    script.extend_from_slice(b"0 edit . / connect ")?;
    script.extend_from_slice(number)?;
    script.extend_from_slice(b" 0 0 1;\n")?;
    Ok(())
}

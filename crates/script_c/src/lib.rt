// A whole script in one call, as a C function: crates/script's function under its own name, with the same promises.
// An array is a pointer and a length; docs/HOST.md tells how to call it.

#![tactic(auto)]

ghost use Rattle.std.specs.Prelude.{◌≡◌, ◌++◌, drop, length, take};
ghost use Rattle.script_text.specs.Lines.{capped};
ghost use Rattle.script_step.specs.Script.{listing};

// The listing of a script: the bytes that fit are written, the rest stays, and the whole length is returned.
#[unsafe(no_mangle)]
pub extern "C" fn row_page_script(script: &[u8], out: &mut [u8]) -> usize
    ensures bytes { out.new ≡ take (length out.old) (listing script.now) ++ drop (length (listing script.now)) out.old }
    ensures length { result ≡ capped (length (listing script.now)) }
{
    script::row_page_script(script, out)
}

//! Texts that are read from the front, so that no list of lines or words is kept.

ghost use Rattle.std.specs.Prelude.{◌≡◌, ◌==◌, ◌<◌, ◌∷◌, [], length};
ghost use Rattle.std.specs.List.{slice_split, before_first};
ghost use Rattle.std.specs.Option.{option_copied, IfSome, IfNone};
ghost use Rattle.texts.specs.Texts.{lines_of};
ghost use Rattle.sched_log.specs.Parts.{behind, parts_behind};

use memchr::memchr;

/// The bytes before the first place of `mark`, and those behind it, where it has one.
pub fn cut(bytes: &[u8], mark: u8) -> (&[u8], Option<&[u8]>)
    ensures parts { slice_split (λ b. b == mark) bytes.now ≡ result.0.now ∷ parts_behind mark (option_copied result.1) }
    ensures before { result.0.now ≡ before_first (λ b. b == mark) bytes.now }
    ensures behind { option_copied result.1 ≡ behind mark bytes.now }
    ensures whole { IfNone result.1 (result.0.now ≡ bytes.now) }
    ensures shorter { IfSome result.1 (λ rest. length rest.now < length bytes.now) }
{
    let Some(at) = memchr(mark, bytes) else {
        return (bytes, None);
    };
    (&bytes[..at], Some(&bytes[at + 1..]))
}

/// The first line of a text without its newline, and the lines behind it.
#[tactic(auto, using(crate::proofs::Cuts::more_lines, crate::proofs::Cuts::last_line))]
pub fn first_line(bytes: &[u8]) -> (&[u8], &[u8])
    requires { 0 < length bytes.now }
    ensures lines { lines_of bytes.now ≡ result.0.now ∷ lines_of result.1.now }
    ensures shorter { length result.1.now < length bytes.now }
{
    let (line, rest) = cut(bytes, b'\n');
    let Some(rest) = rest else {
        return (line, &[]);
    };
    (line, rest)
}

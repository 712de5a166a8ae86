//! The texts for people that words ask for in place of a look.

ghost use Rattle.std.specs.Prelude.{◌≡◌, Ok, map, string_bytes};
ghost use Rattle.top_call.specs.Call.{Written};
ghost use Rattle.top_call.specs.Outside.{Outside, with_out};
ghost use Rattle.look.specs.About.{about_of, text_of, told};
ghost use Rattle.look.specs.Decision.{ending};

use crate::answer::{Answer, Looked};
use crate::call::answered;
use oc_base::sink::Sink;
use top_call::writing::write_out;

/// A text for people.
#[derive(Clone, Copy, Debug, PartialEq, Eq)]
pub enum About {
    /// What the words mean.
    Help,
    Version,
}

/// The text that the words ask for: `--help` or `--version` alone.
pub fn asked_about(words: &[String]) -> Option<About>
    ensures { result ≡ about_of (map string_bytes words.now) }
{
    let [word] = words else {
        return None;
    };
    if word.as_bytes() == b"--help".as_slice() {
        return Some(About::Help);
    }
    if word.as_bytes() == b"--version".as_slice() {
        return Some(About::Version);
    }
    None
}

fn text(about: About) -> &'static [u8]
    ensures { result.now ≡ text_of about }
{
    match about {
        About::Help =>
            b"ocolos_look PROGRAM [--region BASE:SIZE] [--function NAME | --script SCRIPT [--ring N] [--svg FILE]]\nshows a program before it runs, or what a run under a script does to its code.\n\n  PROGRAM             an executable for RV64IMA\n  --region BASE:SIZE  where moved code may lie, as for ocolos_play\n  --function NAME     the blocks of this function, by its number or name\n  --script SCRIPT     run it so, with standard input, and tell where its code went\n  --ring N            how many transfers of each hart a snapshot counts\n  --svg FILE          draw that, too\n  --help, --version   this text; the version\n",
        About::Version => b"ocolos_look 1.0\n",
    }
}

/// Writes a text for people to the first output.
pub fn tell<O: Sink>(about: About, out: &mut O) -> Answer
    ensures { (rest : Outside) → Written ending (Ok (told about)) (with_out O.Sink out.old rest) (with_out O.Sink out.new rest) result }
{
    let Ok(()) = write_out(out, text(about)) else {
        return answered(Looked::WriteFault);
    };
    answered(Looked::Done)
}

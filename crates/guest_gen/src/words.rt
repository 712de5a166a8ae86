//! The words of a call.

ghost use Rattle.std.specs.Prelude.{◌≡◌, ◌≤◌, Some, None, map, IfSome, IfOk, IfErr, string_bytes};
ghost use Rattle.guest_gen.specs.Words.{count_in, generated, form_of, IsCounted, SaysNothing};
ghost use Rattle.guest_gen.specs.declared.decision.Refusal.{Refusal};
ghost use Rattle.guest_gen.specs.declared.words.Form.{Form};

use crate::decision::Refusal;
use asm_text::number::number_of;
use oc_base::text::Text;
use std::alloc::Global;

/// What is asked for.
#[derive(Debug, Drop)]
pub enum Form {
    /// The program of a text.
    Assemble { input: Text, output: Text },
    /// The guest of so many thousand rounds, from 1 to 1000.
    Generate { count: u32, output: Text },
}

// The number from 1 to 1000 that a word of at most ten bytes writes.
#[tactic(auto, unfolding(crate::specs::Words::count_in))]
fn count_in(word: &[u8]) -> Option<u32>
    ensures value { result ≡ count_in word.now }
    ensures range { IfSome result (λ n. (1 ≤ n) × (n ≤ 1000)) }
{
    if word.len() > 10 {
        return None;
    }
    let Some(n) = number_of(word) else {
        return None;
    };
    if n < 1 || n > 1000 {
        return None;
    }
    Some(n as u32)
}

fn assembling(alloc: Global, input: &str, output: &str) -> Result<Form, Refusal>
    ensures ok { IfOk result (λ form. form ≡ Form.Assemble input.now output.now) }
    ensures err { IfErr result (λ refusal. refusal ≡ Refusal.NoMemory) }
{
    let Ok(input) = Text::copy_of(alloc, input) else {
        return Err(Refusal::NoMemory);
    };
    let Ok(output) = Text::copy_of(alloc, output) else {
        return Err(Refusal::NoMemory);
    };
    Ok(Form::Assemble { input, output })
}

fn generating(alloc: Global, option: &str, count: &str, output: &str) -> Result<Form, Refusal>
    ensures ok { IfOk result (λ form. generated option.now (count_in count.now) output.now ≡ Some form) }
    ensures counted { IfOk result IsCounted }
    ensures err { IfErr result (SaysNothing (generated option.now (count_in count.now) output.now)) }
{
    let Some(count) = count_in(count.as_bytes()) else {
        return Err(Refusal::Usage);
    };
    if option != "--generate" {
        return Err(Refusal::Usage);
    }
    let Ok(output) = Text::copy_of(alloc, output) else {
        return Err(Refusal::NoMemory);
    };
    Ok(Form::Generate { count, output })
}

/// What the words ask for: a text's name and an output's, or `--generate`, a number and an output's name.
pub fn read_words(alloc: Global, words: &[String]) -> Result<Form, Refusal>
    ensures ok { IfOk result (λ form. form_of (map string_bytes words.now) ≡ Some form) }
    ensures counted { IfOk result IsCounted }
    ensures err { IfErr result (SaysNothing (form_of (map string_bytes words.now))) }
{
    if let [input, output] = words {
        return assembling(alloc, input.as_str(), output.as_str());
    }
    let [option, count, output] = words else {
        return Err(Refusal::Usage);
    };
    generating(alloc, option.as_str(), count.as_str(), output.as_str())
}

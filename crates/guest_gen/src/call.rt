//! The call itself: decide from words and files, then write the file or the line that tells of a refusal.

ghost use Rattle.std.specs.Prelude.{◌≡◌, ◌≢◌, ℕ, ◌≤◌, List, ◌∷◌, map, Some, None, Err, IfOk, OnErr, length, string_bytes};
ghost use Rattle.top_call.specs.Call.{Decided, Written, EndsWith, UnlessFull};
ghost use Rattle.top_call.specs.Outside.{Outside, no_device, with_files, with_out, with_err};
ghost use Rattle.top_call.specs.Writing.{to_file, WroteAll};
ghost use Rattle.guest_gen.specs.Decision.{text_limit, Assembles, Generates, said_of, said, made_by, ending, make, reading_of};
ghost use Rattle.guest_gen.specs.Promise.{Promise};
ghost use Rattle.guest_gen.specs.Words.{form_of};
ghost use Rattle.guest_gen.specs.declared.decision.Refusal.{Refusal};
ghost use Rattle.guest_gen.specs.declared.words.Form.{Form};

use crate::TEXT_LIMIT;
use crate::answer::{Made, MadeWhat, status};
use crate::decision::{NewFile, Refusal};
use crate::generate::generate;
use crate::words::{Form, read_words};
use elf_make::make::make_elf;
use oc_base::fault::Failed;
use oc_base::files::Files;
use oc_base::sink::Sink;
use oc_base::text::Text;
use rv_asm::assemble::assemble;
use rv_asm::fault::AsmFault;
use std::alloc::{AllocError, Global};
use top_call::reading::fetch;
use top_call::writing::{write_err, write_file, write_out};

// The file of the text's program.
fn file_of(alloc: Global, text: &[u8], name: Text) -> Result<NewFile, Refusal>
    requires { length text.now ≤ text_limit }
    ensures { UnlessFull Refusal.NoMemory (Assembles text.now name) result }
{
    let program = match assemble(alloc, text) {
        Ok(program) => program,
        Err(AsmFault::Line { line, kind }) => return Err(Refusal::Fault { line, kind }),
        Err(AsmFault::NoMemory) => return Err(Refusal::NoMemory),
    };
    let Ok(bytes) = make_elf(alloc, &program) else {
        return Err(Refusal::NoMemory);
    };
    let line = None;
    Ok(NewFile { name, bytes, line })
}

fn said(alloc: Global, count: u32) -> Result<String, AllocError>
    requires { count ≤ 1000 }
    ensures { IfOk result (λ text. string_bytes text ≡ said_of count) }
{
    let number = 18000 * count;
    format!(in alloc; "generated {count} prints {number}\n")
}

// The file of a guest.
fn guest_file(alloc: Global, count: u32, name: Text) -> Result<NewFile, Refusal>
    requires least { 1 ≤ count }
    requires most { count ≤ 1000 }
    ensures { UnlessFull Refusal.NoMemory (Generates count name) result }
{
    let Ok(program) = generate(alloc, count) else {
        return Err(Refusal::NoMemory);
    };
    let Ok(bytes) = make_elf(alloc, &program) else {
        return Err(Refusal::NoMemory);
    };
    let Ok(line) = said(alloc, count) else {
        return Err(Refusal::NoMemory);
    };
    let line = Some(Text::new(line));
    Ok(NewFile { name, bytes, line })
}

// What the words and the files ask for.
fn decide<F: Files>(alloc: Global, words: &[String], files: &mut F) -> Result<NewFile, Refusal>
    ensures { (rest : Outside) → Decided make (reading_of (map string_bytes words.now))
        (with_files F.Files files.old rest) (with_files F.Files files.new rest) result }
{
    let form = match read_words(alloc, words) {
        Ok(form) => form,
        Err(refusal) => return Err(refusal),
    };
    match form {
        Form::Generate { count, output } => guest_file(alloc, count, output),
        Form::Assemble { input, output } => {
            let text = match fetch(alloc, files, input.as_str(), TEXT_LIMIT) {
                Ok(bytes) => bytes,
                Err(why) => return Err(Refusal::from(why)),
            };
            file_of(alloc, text.as_slice(), output)
        }
    }
}

// Writes the file, and then the line that tells of it.
fn put_file<F: Files, O: Sink>(file: &NewFile, files: &mut F, out: &mut O) -> Result<(), Failed>
    ensures wrote { (rest : Outside) → WroteAll (to_file file.now.name file.now.bytes ∷ said file.now.line)
        (with_files F.Files files.old (with_out O.Sink out.old rest)) (with_files F.Files files.new (with_out O.Sink out.new rest)) result }
    ensures quiet { file.now.line ≡ None → out.new ≡ out.old }
{
    let Ok(()) = write_file(files, file.name.as_str(), file.bytes.as_slice()) else {
        return Err(Failed);
    };
    let Some(line) = &file.line else {
        return Ok(());
    };
    write_out(out, line.as_str().as_bytes())
}

// Says that there is no room in memory.
fn give_up<E: Sink>(err: &mut E) -> MadeWhat
    ensures { (rest : Outside) → Written ending (Err Refusal.NoMemory) (with_err E.Sink err.old rest) (with_err E.Sink err.new rest) (made_by result) }
{
    let _ = write_err(err, b"ocolos_asm: out of memory\n");
    MadeWhat::NoMemory
}

/// Answers a call for whose words there is no room in memory.
pub fn out_of_memory<E: Sink>(err: &mut E) -> Made
    ensures { (rest : Outside) → Written ending (Err Refusal.NoMemory) (with_err E.Sink err.old rest) (with_err E.Sink err.new rest) result }
{
    made(give_up(err))
}

// Writes the line of a refusal, which is made before it is written.
fn refuse<E: Sink>(alloc: Global, refusal: &Refusal, err: &mut E) -> MadeWhat
    ensures { (rest : Outside) → EndsWith ending Refusal.NoMemory (Err refusal.now) (with_err E.Sink err.old rest) (with_err E.Sink err.new rest) (made_by result) }
{
    let Ok(line) = refusal.line(alloc) else {
        return give_up(err);
    };
    let Ok(()) = write_err(err, line.as_slice()) else {
        return MadeWhat::WriteFault;
    };
    refusal.what()
}

fn made(what: MadeWhat) -> Made
    ensures { result ≡ made_by what }
{
    Made {
        status: status(what),
        what,
    }
}

// Writes what was decided: the file and its line, or the line that tells of a refusal.
fn deliver<F: Files, O: Sink, E: Sink>(
    alloc: Global,
    decision: Result<NewFile, Refusal>,
    files: &mut F,
    out: &mut O,
    err: &mut E,
) -> MadeWhat
    ensures ends { (rest : Outside) → EndsWith ending Refusal.NoMemory decision
        (with_files F.Files files.old (with_out O.Sink out.old (with_err E.Sink err.old rest)))
        (with_files F.Files files.new (with_out O.Sink out.new (with_err E.Sink err.new rest))) (made_by result) }
    ensures quiet { IfOk decision (λ file. file.line ≡ None → out.new ≡ out.old) }
    ensures silent { OnErr decision (out.new ≡ out.old) }
{
    let file = match decision {
        Ok(file) => file,
        Err(refusal) => return refuse(alloc, &refusal, err),
    };
    let Ok(()) = put_file(&file, files, out) else {
        return MadeWhat::WriteFault;
    };
    MadeWhat::Done
}

/// Assembles a text, or generates a guest, and writes the program's file.
///
/// The words are the names of the text and of the file, or `--generate`, a number from 1 to 1000 and the name of the file.
/// `files` gives the text and takes the file; `out` takes the line that tells what a generated guest prints, once its file
/// is written; `err` takes the line that tells of a refusal. All is made before anything is written: on a refusal no file
/// changes, and otherwise nothing is written to `err`. Want of memory is such a refusal, and its line may be lost.
pub fn make<F: Files, O: Sink, E: Sink>(
    alloc: Global,
    words: &[String],
    files: &mut F,
    out: &mut O,
    err: &mut E,
) -> Made
    ensures promise { Promise (map string_bytes words.now)
        (with_files F.Files files.old (with_out O.Sink out.old (with_err E.Sink err.old no_device)))
        (with_files F.Files files.new (with_out O.Sink out.new (with_err E.Sink err.new no_device))) result }

    // A text never changes `out`.
    ensures out { ((n : ℕ) (output : List ℕ) → form_of (map string_bytes words.now) ≢ Some (Form.Generate n output)) → out.new ≡ out.old }
{
    let decision = decide(alloc, words, files);
    made(deliver(alloc, decision, files, out, err))
}

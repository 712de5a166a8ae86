//! From the bytes of a line to its tokens.

ghost use Rattle.std.specs.Prelude.{◌≡◌, ◌++◌, ◌∷◌, [], ℕ, List, IfOk, OnOk};
ghost use Rattle.asm_text.specs.Tokens.{tokens, tokens_of, flush, is_blank};
ghost use Rattle.asm_text.specs.declared.token.Mode.TheVariants.{Plain, Quoted};

use crate::name::is_name_byte;
use crate::token::{Mode, Token};
use oc_base::fault::NoMemory;
use oc_base::items::Items;
use std::alloc::Global;

/// The tokens so far, and the word or quoted text that is open.
#[derive(Debug, Drop)]
struct Lexer {
    all: Vec<Token>,
    mode: Mode,
    word: Vec<u8>,
}

fn is_blank(c: u8) -> bool
    ensures { result ≡ is_blank c }
{
    c == b' ' || c == b'\t'
}

impl Lexer {
    fn push(&mut self, token: Token) -> Result<(), NoMemory>
        ensures { OnOk result ((self.new.all.items ≡ self.old.all.items ++ token ∷ []) × (self.new.mode ≡ self.old.mode) × (self.new.word.items ≡ self.old.word.items)) }
    {
        self.all.push(token)?;
        Ok(())
    }

    // The open word, which is then empty.
    fn take_word(&mut self, alloc: Global) -> Items<u8>
        ensures word { result ≡ self.old.word.items }
        ensures empty { self.new.word.items ≡ [] }
        ensures rest { (self.new.all.items ≡ self.old.all.items) × (self.new.mode ≡ self.old.mode) }
    {
        Items::from_vec(std::mem::replace(&mut self.word, Vec::new(alloc)))
    }

    fn end_word(&mut self, alloc: Global) -> Result<(), NoMemory>
        ensures { OnOk result ((self.new.all.items ≡ self.old.all.items ++ flush self.old.word.items) × (self.new.mode ≡ self.old.mode) × (self.new.word.items ≡ [])) }
    {
        if !self.word.is_empty() {
            let word = self.take_word(alloc);
            self.push(Token::Word(word))?;
        }
        Ok(())
    }

    // A mark, which ends a word.
    fn mark(&mut self, alloc: Global, token: Token) -> Result<(), NoMemory>
        ensures { OnOk result ((self.new.all.items ≡ self.old.all.items ++ flush self.old.word.items ++ token ∷ []) × (self.new.mode ≡ self.old.mode) × (self.new.word.items ≡ [])) }
    {
        self.end_word(alloc)?;
        self.push(token)
    }

    fn plain(&mut self, alloc: Global, c: u8) -> Result<(), NoMemory>
        requires { self.old.mode ≡ Plain }
        ensures { OnOk result ((rest : List ℕ) → self.new.all.items ++ tokens self.new.mode self.new.word.items rest ≡ self.old.all.items ++ tokens Plain self.old.word.items (c ∷ rest)) }
    {
        match c {
            b'#' => {
                self.end_word(alloc)?;
                self.mode = Mode::Comment;
            }
            b'"' => {
                self.end_word(alloc)?;
                self.mode = Mode::Quoted;
            }
            b',' => self.mark(alloc, Token::Comma)?,
            b':' => self.mark(alloc, Token::Colon)?,
            b';' => self.mark(alloc, Token::Semicolon)?,
            b'(' => self.mark(alloc, Token::Open)?,
            b')' => self.mark(alloc, Token::Close)?,
            c if is_blank(c) => self.end_word(alloc)?,
            c if is_name_byte(c) => self.word.push(c)?,
            c => {
                self.end_word(alloc)?;
                self.word.push(c)?;
            }
        }
        Ok(())
    }

    fn quoted(&mut self, alloc: Global, c: u8) -> Result<(), NoMemory>
        requires { self.old.mode ≡ Quoted }
        ensures { OnOk result ((rest : List ℕ) → self.new.all.items ++ tokens self.new.mode self.new.word.items rest ≡ self.old.all.items ++ tokens Quoted self.old.word.items (c ∷ rest)) }
    {
        if c == b'"' {
            let word = self.take_word(alloc);
            self.push(Token::Text(word))?;
            self.mode = Mode::Plain;
        } else {
            self.word.push(c)?;
        }
        Ok(())
    }

    // Takes the next byte.
    fn step(&mut self, alloc: Global, c: u8) -> Result<(), NoMemory>
        ensures { OnOk result ((rest : List ℕ) → self.new.all.items ++ tokens self.new.mode self.new.word.items rest ≡ self.old.all.items ++ tokens self.old.mode self.old.word.items (c ∷ rest)) }
    {
        match self.mode {
            Mode::Plain => self.plain(alloc, c),
            Mode::Quoted => self.quoted(alloc, c),
            Mode::Comment => Ok(()),
        }
    }

    // All tokens, at the line's end.
    fn finish(mut self, alloc: Global) -> Result<Vec<Token>, NoMemory>
        ensures { IfOk result (λ v. v.items ≡ self.all.items ++ tokens self.mode self.word.items []) }
    {
        match self.mode {
            Mode::Plain => self.end_word(alloc)?,
            Mode::Quoted => self.push(Token::Broken)?,
            Mode::Comment => (),
        }
        let Lexer {
            all,
            mode: _,
            word: _,
        } = self;
        Ok(all)
    }
}

/// The tokens of a line.
#[tactic(auto, unfolding(crate::specs::Tokens::tokens_of))]
pub fn tokens_of(alloc: Global, line: &[u8]) -> Result<Vec<Token>, NoMemory>
    ensures { IfOk result (λ v. v.items ≡ tokens_of line.now) }
{
    let mut lexer = Lexer {
        all: Vec::new(alloc),
        mode: Mode::Plain,
        word: Vec::new(alloc),
    };
    for c in line {
        lexer.step(alloc, *c)?;
    }
    lexer.finish(alloc)
}

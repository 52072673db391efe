ghost use Rattle.std.specs.Prelude.{◌≡◌, ◌||◌, [], ◌∷◌, ◌++◌, false, OnOk};
ghost use Rattle.std.specs.List.{flat_map};
ghost use Rattle.wat_lex.specs.Rules.{doubled};
ghost use Rattle.wat_spell.specs.Growing.{empty, put, puts};
ghost use Rattle.wat_spell.specs.Spelling.{integer, tokens_if};
ghost use Rattle.wat_spell.specs.Tokens as spec;

use crate::symbol::Symbol;
use itoa::Buffer;
use std::alloc::Global;
use std::marker::Model;
use wat_list::NoMemory;
use wat_name::Name;
use wat_value::Text;
use wat_word::Keyword;

/// A text that grows by tokens, with a space between two of them unless one of them is tight there.
///
/// After a refusal a part of a token may stand.
#[derive(Drop)]
pub struct Writing {
    bytes: Vec<u8>,
    is_tight: bool,
}

impl Model for Writing {
    ghost use Rattle.wat_spell.specs.Growing.{Growing};

    ghost Value = { Growing };

    ghost view = { λ w. record { text = w.bytes.items; is_tight = w.is_tight } };
}

fn push_doubled(out: &mut Vec<u8>, text: &[u8]) -> Result<(), NoMemory>
    ensures { OnOk result (out.new.items ≡ out.old.items ++ flat_map doubled text.now) }
{
    for byte in text {
        if *byte == b'\'' {
            out.extend_from_slice(b"''")?;
        } else {
            out.push(*byte)?;
        }
    }
    Ok(())
}

impl Writing {
    pub fn new(alloc: Global) -> Self
        ensures { result ≡ empty }
    {
        Writing {
            bytes: Vec::new(alloc),
            is_tight: true,
        }
    }

    pub fn alloc(&self) -> Global {
        *self.bytes.allocator()
    }

    pub fn as_slice(&self) -> &[u8]
        ensures { result.now ≡ self.now.text }
    {
        self.bytes.as_slice()
    }

    /// A space, unless what is there or what comes is tight.
    fn space(&mut self, is_tight: bool) -> Result<(), NoMemory>
        ensures { OnOk result (self.new.text ≡ self.old.text ++ spec.gap (self.old.is_tight || is_tight)) }
    {
        if self.is_tight || is_tight {
            return Ok(());
        }
        self.bytes.extend_from_slice(b" ")
    }

    fn text(&mut self, text: &str, is_tight: bool) -> Result<(), NoMemory>
        ensures { OnOk result (self.new ≡ record { text = self.old.text ++ text.now; is_tight = is_tight }) }
    {
        self.bytes.extend_from_slice(text.as_bytes())?;
        self.is_tight = is_tight;
        Ok(())
    }

    pub fn word(&mut self, keyword: Keyword) -> Result<(), NoMemory>
        ensures { OnOk result (self.new ≡ put self.old (spec.word keyword)) }
    {
        self.space(false)?;
        self.text(keyword.spelling(), false)
    }

    pub fn word_if(&mut self, condition: bool, keyword: Keyword) -> Result<(), NoMemory>
        ensures { OnOk result (self.new ≡ puts self.old (tokens_if condition (spec.word keyword ∷ []))) }
    {
        if condition {
            self.word(keyword)
        } else {
            Ok(())
        }
    }

    pub fn name(&mut self, name: &Name) -> Result<(), NoMemory>
        ensures { OnOk result (self.new ≡ put self.old (spec.name name.now)) }
    {
        self.space(false)?;
        self.text(name.as_str(), false)
    }

    pub fn number(&mut self, number: u64) -> Result<(), NoMemory>
        ensures { OnOk result (self.new ≡ put self.old (spec.number number)) }
    {
        let mut buffer = Buffer::new();
        self.space(false)?;
        self.text(buffer.format(number), false)
    }

    /// A minus and the digits, with nothing between.
    fn negative(&mut self, digits: u64) -> Result<(), NoMemory>
        ensures { OnOk result (self.new ≡ put self.old (spec.negative digits)) }
    {
        let mut buffer = Buffer::new();
        self.space(false)?;
        self.bytes.extend_from_slice(b"-")?;
        self.text(buffer.format(digits), false)
    }

    /// The digits, behind a minus if the number is below zero.
    pub fn integer(&mut self, number: i64) -> Result<(), NoMemory>
        ensures { OnOk result (self.new ≡ put self.old (integer number)) }
    {
        if number < 0 {
            return self.negative(number.unsigned_abs());
        }
        self.number(number.unsigned_abs())
    }

    pub fn quoted(&mut self, text: &Text) -> Result<(), NoMemory>
        ensures { OnOk result (self.new ≡ put self.old (spec.quoted text.now)) }
    {
        self.space(false)?;
        self.bytes.extend_from_slice(b"'")?;
        push_doubled(&mut self.bytes, text.as_str().as_bytes())?;
        self.text("'", false)
    }

    pub fn symbol(&mut self, symbol: Symbol) -> Result<(), NoMemory>
        ensures { OnOk result (self.new ≡ put self.old (spec.symbol symbol)) }
    {
        self.space(symbol.is_tight_left())?;
        self.text(symbol.as_str(), symbol.is_tight_right())
    }
}

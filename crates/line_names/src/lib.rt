// The names of a record's lines, in the order of form 2.
#![tactic(auto)]

ghost use Rattle.std.specs.Prelude.{◌≡◌, eqb};
ghost use Rattle.line_names.specs.Names.{name_text, same_text, number_in, is_decimal, has_name, number_of, number_found};

use line_parts::name_in;

// The name of a record's line.
#[derive(Clone, Copy, PartialEq, Eq)]
pub enum Name {
    Form,
    Number,
    Version,
    Alg,
    Use,
    Side,
    Place,
    Mcc,
    Mnc,
    Key,
}

// The ten names in the order of form 2.
pub const NAMES: [Name; 10] = [
    Name::Form,
    Name::Number,
    Name::Version,
    Name::Alg,
    Name::Use,
    Name::Side,
    Name::Place,
    Name::Mcc,
    Name::Mnc,
    Name::Key,
];

impl Name {
    // How the name is written.
    #[tactic(auto, unfolding(crate::specs::Names::name_text))]
    pub fn text(self) -> &'static [u8]
        ensures { result.now ≡ name_text (number_of self) }
    {
        match self {
            Name::Form => b"form",
            Name::Number => b"number",
            Name::Version => b"version",
            Name::Alg => b"alg",
            Name::Use => b"use",
            Name::Side => b"side",
            Name::Place => b"place",
            Name::Mcc => b"mcc",
            Name::Mnc => b"mnc",
            Name::Key => b"key",
        }
    }

    // Is a text the name?
    fn is_written(self, text: &[u8]) -> bool
        ensures { result ≡ same_text text.now (name_text (number_of self)) }
    {
        same_text(text, self.text())
    }

    // Is the value under the name a decimal number?
    #[tactic(auto, unfolding(crate::specs::Names::is_decimal))]
    pub fn is_decimal(self) -> bool
        ensures { result ≡ is_decimal (number_of self) }
    {
        !matches!(self, Name::Alg | Name::Use | Name::Key)
    }

    // Does a form have the name? `form` and the network codes only form 2 has.
    #[tactic(auto, unfolding(crate::specs::Names::has_name))]
    pub fn is_in(self, two: bool) -> bool
        ensures { result ≡ has_name two (number_of self) }
    {
        match self {
            Name::Form | Name::Mcc | Name::Mnc => two,
            _ => true,
        }
    }
}

// Are two texts the same? Byte by byte, so that a text of known bytes costs as many tests and no call.
fn same_text<'a>(s: &'a [u8], t: &'a [u8]) -> bool
    ensures { result ≡ same_text s.now t.now }
{
    if s.len() != t.len() {
        return false;
    }
    let mut i = 0;
    while i < s.len() {
        if s[i] != t[i] {
            return false;
        }
        i += 1;
    }
    true
}

// The name of a line, where a record has it. Each name is tested by itself and not by a search, so that the length of the line's name
// tells at once which can still be meant.
pub fn name_of(line: &[u8]) -> Option<Name>
    ensures { number_found result ≡ number_in line.now }
{
    let name = name_in(line);
    if Name::Form.is_written(name) {
        return Some(Name::Form);
    }
    if Name::Number.is_written(name) {
        return Some(Name::Number);
    }
    if Name::Version.is_written(name) {
        return Some(Name::Version);
    }
    if Name::Alg.is_written(name) {
        return Some(Name::Alg);
    }
    if Name::Use.is_written(name) {
        return Some(Name::Use);
    }
    if Name::Side.is_written(name) {
        return Some(Name::Side);
    }
    if Name::Place.is_written(name) {
        return Some(Name::Place);
    }
    if Name::Mcc.is_written(name) {
        return Some(Name::Mcc);
    }
    if Name::Mnc.is_written(name) {
        return Some(Name::Mnc);
    }
    if Name::Key.is_written(name) {
        return Some(Name::Key);
    }
    None
}

// Has a line this name, or none at `None`?
pub fn is_named(line: &[u8], name: Option<Name>) -> bool
    ensures { result ≡ eqb (number_in line.now) (number_found name) }
{
    name_of(line) == name
}

// The place of a line's name in the order of form 2, counted from 0: the eleventh, where no record has it.
pub fn place_of(line: &[u8]) -> usize
    ensures { result ≡ number_in line.now }
{
    name_of(line).map_or(NAMES.len(), |name| name as usize)
}

// Is the value under a name a decimal number, by the name's number? It is under every name that no record has.
pub fn is_decimal(k: usize) -> bool
    ensures { result ≡ is_decimal k }
{
    NAMES.get(k).is_none_or(|name| name.is_decimal())
}

// Does a form have a name, by the name's number? A name that no record has, neither form has.
pub fn has_name(two: bool, k: usize) -> bool
    ensures { result ≡ has_name two k }
{
    NAMES.get(k).is_some_and(|name| name.is_in(two))
}

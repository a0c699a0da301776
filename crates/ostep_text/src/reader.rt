//! Reading values, arrays and dictionaries into a draft, as their tokens are read.
ghost use Rattle.std.specs.Prelude.{◌≡◌, ◌≤◌, ◌*◌, ◌∷◌, ◌++◌, [], false, ℕ, List, length};
ghost use Rattle.std.specs.Prelude.{IfOk, IfErr};
ghost use Rattle.std.specs.Result.{OnOk};
ghost use Rattle.plist_value.specs.Plist.{Pairs, AreUnits, scalar, text as units};
ghost use Rattle.plist_value.specs.Texts.{units_of};
ghost use Rattle.plist_value.specs.Budget.{Spends};
ghost use Rattle.ostep_lex.specs.Lexeme.{Located, located, lexeme_of, text as string, paren_close};
ghost use Rattle.ostep_lex.specs.Lexeme.{brace_close};
ghost use Rattle.ostep_lex.specs.Cursor.{ahead};
ghost use Rattle.ostep_text.specs.Begun.{Before, opened, with_rows};
ghost use Rattle.ostep_text.specs.Sorting.{has_key};
ghost use Rattle.plist_draft.specs.Encoded.{Keeps, SpellsIn, SpellItemsIn};
ghost use Rattle.plist_draft.specs.View.{objects};
ghost use Rattle.ostep_text.specs.Drafted.{IsBuilt, SpellsRow, SpellsRows};
ghost use Rattle.ostep_text.specs.First.{first_placed, IsValid};
ghost use Rattle.ostep_text.specs.Stands.{Stands};
ghost use Rattle.ostep_text.specs.Machine.{Around};
ghost use Rattle.ostep_text.specs.Reading.{Front, AreBefore, HasRead, IsLeft, MayRefuse};
ghost use Rattle.ostep_text.specs.Reading.{ReadsValue, ReadsEnded, ReadsItems, ReadsRow};
ghost use Rattle.ostep_text.specs.Reading.{ReadsPairs};
ghost use Rattle.ostep_text.specs.Reading.{Takes, TakesItems, TakesPairs, TakesRow};
ghost use Rattle.ostep_text.specs.Due.{ValueDue, RowValueDue, ListDue, TableDue, RowDue};

use crate::TextFault;
use crate::building::{put_data, put_key, put_list, put_table, put_text};
use crate::entries::Entries;
use crate::first::First;
use crate::key::Key;
use crate::key_set::KeySet;
use crate::payloads::{data_payload, text_payload};
use crate::tokens::Tokens;
use ostep_lex::{Token, TokenKind};
use plist_draft::Draft;
use plist_value::{Budget, TextRef};
use std::alloc::Global;

// The tokens not yet read, what is left of the limits, and the draft of what was read.
#[derive(Drop)]
pub(crate) struct Reader<'a> {
    pub(crate) alloc: Global,
    pub(crate) tokens: Tokens<'a>,
    pub(crate) left: Budget,
    pub(crate) draft: Draft,
}

impl<'a> Reader<'a> {
    // Reads the value that begins with this token; `levels` is the depth allowed for it.
    #[cycle(value)]
    #[inline(always)]
    pub(crate) fn value(&mut self, first: First<'_>, levels: u64) -> Result<u32, TextFault>
        requires { IsValid first }
        ensures shorter { OnOk result
            (length (ahead self.new.tokens.cursor) ≤ length (ahead self.old.tokens.cursor)) }
        ensures kept { OnOk result (Keeps (objects self.old.draft) (objects self.new.draft)) }
        ensures built { IfOk result (λ number. IsBuilt (SpellsIn (objects self.new.draft)) number
            (λ v. Takes self.old.left levels v self.new.left)
            (λ v. (octets : List ℕ) (tokens : List Located)
            → HasRead octets (tokens ++ first_placed first.entry ∷ []) self.old.tokens
            → ReadsValue octets tokens (first_placed first.entry).lexeme v self.new.tokens)) }
        ensures stands { (octets : List ℕ) (tokens : List Located) (whole : Front) (b : Before)
            (a : Around) → AreBefore tokens whole
            → HasRead octets (tokens ++ first_placed first.entry ∷ []) self.old.tokens
            → ValueDue whole b a (first_placed first.entry).lexeme
            → IsLeft self.old.left levels b → IfErr result (Stands octets) }
    {
        match first {
            First::Plain(token) => self.string(token.text, token.start, levels),
            First::Other(token) => self.token_value(token, levels),
        }
    }

    // Like [`value`](Reader::value), at a token that is not borrowed.
    #[cycle(value)]
    pub(crate) fn token_value(&mut self, first: Token, levels: u64) -> Result<u32, TextFault>
        ensures shorter { OnOk result
            (length (ahead self.new.tokens.cursor) ≤ length (ahead self.old.tokens.cursor)) }
        ensures kept { OnOk result (Keeps (objects self.old.draft) (objects self.new.draft)) }
        ensures built { IfOk result (λ number. IsBuilt (SpellsIn (objects self.new.draft)) number
            (λ v. Takes self.old.left levels v self.new.left)
            (λ v. (octets : List ℕ) (tokens : List Located)
            → HasRead octets (tokens ++ located first ∷ []) self.old.tokens
            → ReadsValue octets tokens (lexeme_of first.kind) v self.new.tokens)) }
        ensures stands { (octets : List ℕ) (tokens : List Located) (whole : Front) (b : Before)
            (a : Around) → AreBefore tokens whole
            → HasRead octets (tokens ++ located first ∷ []) self.old.tokens
            → ValueDue whole b a (lexeme_of first.kind) → IsLeft self.old.left levels b
            → IfErr result (Stands octets) }
    {
        let octet = first.start;
        match first.kind {
            TokenKind::Text(text) => { self.string(TextRef::of_units(text.units()), octet, levels) }
            TokenKind::Octets(octets) => {
                self.charge(octet, levels, data_payload(octets.as_slice()))?;
                put_data(&mut self.draft, &octets)
            }
            TokenKind::ParenOpen => {
                self.charge(octet, levels, 0)?;
                let items = self.items(levels - 1)?;
                put_list(&mut self.draft, &items)
            }
            TokenKind::BraceOpen => {
                self.charge(octet, levels, 0)?;
                let rows = self.rows(levels - 1)?;
                put_table(&mut self.draft, &rows)
            }
            _ => Err(self.tokens.refuse(TextFault::Expected { octet })),
        }
    }

    // Reads the items of an array after its `(`, up to and with its `)`.
    #[cycle(value)]
    fn items(&mut self, levels: u64) -> Result<Vec<u32>, TextFault>
        ensures shorter { OnOk result
            (length (ahead self.new.tokens.cursor) ≤ length (ahead self.old.tokens.cursor)) }
        ensures kept { OnOk result (Keeps (objects self.old.draft) (objects self.new.draft)) }
        ensures built { IfOk result (λ items.
            IsBuilt (SpellItemsIn (objects self.new.draft)) items.items
            (λ vs. TakesItems self.old.left levels vs self.new.left)
            (λ vs. (octets : List ℕ) (tokens : List Located) → HasRead octets tokens self.old.tokens
            → ReadsItems octets tokens (paren_close ∷ []) vs self.new.tokens)) }
        ensures stands { (octets : List ℕ) (tokens : List Located) (whole : Front) (b : Before)
            (a : Around) → AreBefore tokens whole → HasRead octets tokens self.old.tokens
            → ListDue whole b a → IsLeft self.old.left levels (opened b)
            → IfErr result (Stands octets) }
    {
        let mut items = Vec::new(self.alloc);
        loop {
            let first = self.tokens.expect_first()?;
            if first.ends_list() {
                return Ok(items);
            }
            let item = self.value(first, levels)?;
            items.push(item)?;
            let after = self.tokens.expect_mark(',')?;
            match after.kind {
                TokenKind::ParenClose => return Ok(items),
                TokenKind::Comma => {}
                _ => {
                    let octet = after.start;
                    return Err(self.tokens.refuse(TextFault::Expected { octet }));
                }
            }
        }
    }

    // Reads the rows of a dictionary after its `{`, up to and with its `}`.
    #[cycle(value)]
    fn rows(&mut self, levels: u64) -> Result<Entries, TextFault>
        ensures shorter { OnOk result
            (length (ahead self.new.tokens.cursor) ≤ length (ahead self.old.tokens.cursor)) }
        ensures even { IfOk result (λ rows.
            length rows.keys.items ≡ length rows.values.items) }
        ensures kept { OnOk result (Keeps (objects self.old.draft) (objects self.new.draft)) }
        ensures built { IfOk result (λ rows. IsBuilt (SpellsRows (objects self.new.draft)) rows
            (λ ps. TakesPairs self.old.left levels ps self.new.left)
            (λ ps. (octets : List ℕ) (tokens : List Located) → HasRead octets tokens self.old.tokens
            → ReadsPairs octets tokens (brace_close ∷ []) ps self.new.tokens)) }
        ensures stands { (octets : List ℕ) (tokens : List Located) (whole : Front) (b : Before)
            (a : Around) → AreBefore tokens whole → HasRead octets tokens self.old.tokens
            → TableDue whole b a → IsLeft self.old.left levels (opened b)
            → IfErr result (Stands octets) }
    {
        let mut keys = KeySet::new(self.alloc);
        let mut rows = Entries::new(self.alloc);
        loop {
            let first = self.tokens.expect_first()?;
            if first.ends_table() {
                return Ok(rows);
            }
            let octet = first.start();
            let Some(key) = first.key() else {
                return Err(self.tokens.refuse(TextFault::Expected { octet }));
            };
            let known = keys.insert(self.alloc, &key)?;
            let row = self.row(&key, octet, levels, known)?;
            rows.push(row)?;
        }
    }

    // Reads the rest of a row after its key, which begins at `octet`. Refuses the key if it is
    // already `known`.
    #[cycle(value)]
    pub(crate) fn row(
        &mut self,
        key: &Key<'_>,
        octet: usize,
        levels: u64,
        known: bool,
    ) -> Result<(u32, u32), TextFault>
        ensures shorter { OnOk result
            (length (ahead self.new.tokens.cursor) ≤ length (ahead self.old.tokens.cursor)) }
        ensures once { OnOk result (known ≡ false) }
        ensures kept { OnOk result (Keeps (objects self.old.draft) (objects self.new.draft)) }
        ensures built { IfOk result (λ row.
            IsBuilt (SpellsRow (objects self.new.draft) key.now) row
            (λ v. TakesRow self.old.left levels key.now v self.new.left)
            (λ v. (octets : List ℕ) (tokens : List Located) (at : Located)
            → at.lexeme ≡ string key.now → HasRead octets (tokens ++ at ∷ []) self.old.tokens
            → ReadsRow octets tokens key.now v self.new.tokens)) }
        ensures stands { (octets : List ℕ) (tokens : List Located) (at : Located) (whole : Front)
            (b : Before) (t : Around) (before pairs : Pairs)
            → at.lexeme ≡ string key.now → at.start ≡ octet → AreBefore tokens whole
            → HasRead octets (tokens ++ at ∷ []) self.old.tokens
            → RowDue whole b t before pairs → has_key key.now pairs ≡ known
            → IsLeft self.old.left levels (with_rows before b)
            → IfErr result (Stands octets) }
    {
        self.charge(octet, levels, key.payload())?;
        if known {
            return Err(self.tokens.refuse(TextFault::DuplicateKey { octet }));
        }
        let number = put_key(&mut self.draft, key)?;
        let after = self.tokens.expect_mark('=')?;
        match after.kind {
            TokenKind::Equals => {
                let value = self.row_value(levels)?;
                Ok((number, value))
            }
            TokenKind::Semicolon => {
                self.charge(octet, levels, key.payload())?;
                Ok((number, number))
            }
            _ => {
                let octet = after.start;
                Err(self.tokens.refuse(TextFault::Expected { octet }))
            }
        }
    }

    // Reads the value of a row after its `=`, and the `;` after it.
    #[cycle(value)]
    pub(crate) fn row_value(&mut self, levels: u64) -> Result<u32, TextFault>
        ensures shorter { OnOk result
            (length (ahead self.new.tokens.cursor) ≤ length (ahead self.old.tokens.cursor)) }
        ensures kept { OnOk result (Keeps (objects self.old.draft) (objects self.new.draft)) }
        ensures built { IfOk result (λ number. IsBuilt (SpellsIn (objects self.new.draft)) number
            (λ v. Takes self.old.left levels v self.new.left)
            (λ v. (octets : List ℕ) (tokens : List Located) → HasRead octets tokens self.old.tokens
            → ReadsEnded octets tokens v self.new.tokens)) }
        ensures stands { (octets : List ℕ) (tokens : List Located) (whole : Front) (b : Before)
            (t : Around) → AreBefore tokens whole → HasRead octets tokens self.old.tokens
            → RowValueDue whole b t → IsLeft self.old.left levels b
            → IfErr result (Stands octets) }
    {
        let first = self.tokens.expect_first()?;
        let value = self.value(first, levels)?;
        let after = self.tokens.expect_mark(';')?;
        match after.kind {
            TokenKind::Semicolon => Ok(value),
            _ => {
                let octet = after.start;
                Err(self.tokens.refuse(TextFault::Expected { octet }))
            }
        }
    }

    // Reads a string that begins at `octet`, which is a value or a key; `levels` is the depth
    // allowed for it.
    pub(crate) fn string(
        &mut self,
        text: TextRef<'_>,
        octet: usize,
        levels: u64,
    ) -> Result<u32, TextFault>
        requires { AreUnits (units_of text) }
        ensures spent { OnOk result
            (Spends self.old.left 1 (2 * length (units_of text.entry)) self.new.left) }
        ensures deep { OnOk result (1 ≤ levels) }
        ensures tokens { self.new.tokens ≡ self.old.tokens }
        ensures kept { OnOk result (Keeps (objects self.old.draft) (objects self.new.draft)) }
        ensures spells { IfOk result (λ number.
            SpellsIn (objects self.new.draft) number (scalar (units (units_of text.entry)))) }
        ensures stands { (octets : List ℕ) (tokens : List Located)
            → HasRead octets tokens self.old.tokens
            → MayRefuse octets octet levels (2 * length (units_of text.entry)) self.old.left
            → IfErr result (Stands octets) }
    {
        self.charge(octet, levels, text_payload(text))?;
        put_text(&mut self.draft, text)
    }

    // Counts a node that begins at `octet`, and its payload, against the limits; `levels` is the
    // depth allowed for it.
    pub(crate) fn charge(
        &mut self,
        octet: usize,
        levels: u64,
        payload: u128,
    ) -> Result<(), TextFault>
        ensures spent { OnOk result (Spends self.old.left 1 payload self.new.left) }
        ensures deep { OnOk result (1 ≤ levels) }
        ensures tokens { self.new.tokens ≡ self.old.tokens }
        ensures draft { self.new.draft ≡ self.old.draft }
        ensures stands { (octets : List ℕ) (tokens : List Located)
            → HasRead octets tokens self.old.tokens
            → MayRefuse octets octet levels payload self.old.left
            → IfErr result (Stands octets) }
    {
        let Some(node) = self.left.take_node() else {
            return Err(self.tokens.refuse(TextFault::TooManyNodes { octet }));
        };
        if levels == 0 {
            return Err(self.tokens.refuse(TextFault::TooDeep { octet }));
        }
        let Some(left) = node.take_payload(payload) else {
            return Err(self.tokens.refuse(TextFault::TooMuchPayload { octet }));
        };
        self.left = left;
        Ok(())
    }
}

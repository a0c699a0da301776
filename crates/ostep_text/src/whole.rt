//! Reading whole texts: one value, or a dictionary without braces.
ghost use Rattle.std.specs.Prelude.{◌≡◌, ◌*◌, ◌∷◌, [], ℕ, List, length, IfOk, IfErr};
ghost use Rattle.std.specs.Result.{OnOk};
ghost use Rattle.plist_value.specs.declared.budget.Budget.{Budget as Left};
ghost use Rattle.plist_value.specs.Plist.{Plist, AreUnits, IsPlist};
ghost use Rattle.plist_value.specs.Limits.{Fits};
ghost use Rattle.plist_value.specs.Budget.{Spends};
ghost use Rattle.ostep_lex.specs.Lexeme.{Lexeme, Located, located, lexeme_of, text as string};
ghost use Rattle.ostep_text.specs.Begun.{nothing, opened};
ghost use Rattle.plist_draft.specs.Encoded.{SpellsIn};
ghost use Rattle.plist_draft.specs.View.{objects};
ghost use Rattle.ostep_text.specs.Drafted.{IsDrafted, SpellsRow};
ghost use Rattle.ostep_text.specs.Stands.{Stands};
ghost use Rattle.ostep_text.specs.Machine.{at_front, begun, top};
ghost use Rattle.ostep_text.specs.Reading.{HasRead, IsLeft, ReadsValue, ReadsRow, TakesRow};

use crate::TextFault;
use crate::building::{put_key, put_table};
use crate::entries::Entries;
use crate::key::Key;
use crate::key_set::KeySet;
use crate::reader::Reader;
use crate::tokens::begins_value;
use ostep_lex::{Token, TokenKind};
use plist_value::MAX_DEPTH;

// The depth allowed inside a dictionary without braces.
const BARE_LEVELS: u64 = MAX_DEPTH - 1;

impl<'a> Reader<'a> {
    // Reads the whole text and returns the number of its value.
    pub(crate) fn whole(&mut self) -> Result<u32, TextFault>
        ensures read { (octets : List ℕ) → HasRead octets [] self.old.tokens
            → IsLeft self.old.left MAX_DEPTH nothing
            → IfOk result (IsDrafted octets (objects self.new.draft)) }
        ensures stands { (octets : List ℕ) → HasRead octets [] self.old.tokens
            → IsLeft self.old.left MAX_DEPTH nothing
            → IfErr result (Stands octets) }
    {
        let Some(first) = self.tokens.next()? else {
            let rows = Entries::new(self.alloc);
            return put_table(&mut self.draft, &rows);
        };
        let start = first.start;
        match first.kind {
            TokenKind::Text(text) => self.string_first(Key::owned(text), start),
            _ => self.value_first(first),
        }
    }

    // Reads a text that begins with this token, which is not a string.
    fn value_first(&mut self, first: Token) -> Result<u32, TextFault>
        ensures read { (octets : List ℕ) → HasRead octets (located first ∷ []) self.old.tokens
            → IsLeft self.old.left MAX_DEPTH nothing
            → IfOk result (IsDrafted octets (objects self.new.draft)) }
        ensures stands { (octets : List ℕ) → HasRead octets (located first ∷ []) self.old.tokens
            → IsLeft self.old.left MAX_DEPTH nothing
            → at_front (lexeme_of first.kind) ≡ begun top (lexeme_of first.kind)
            → IfErr result (Stands octets) }
    {
        if !begins_value(&first.kind) {
            let octet = first.start;
            return Err(self.tokens.refuse(TextFault::Expected { octet }));
        }
        let value = self.token_value(first, MAX_DEPTH)?;
        self.finish(value)
    }

    // Returns `number` if the text ends after its value. Its first token is not a string.
    fn finish(&mut self, number: u32) -> Result<u32, TextFault>
        ensures read { (octets : List ℕ) (first : Lexeme) (v : Plist)
            → SpellsIn (objects self.old.draft) number v
            → ReadsValue octets [] first v self.old.tokens → IsPlist v → Fits v
            → IfOk result (IsDrafted octets (objects self.new.draft)) }
        ensures stands { (octets : List ℕ) (first : Lexeme) (v : Plist)
            → ReadsValue octets [] first v self.old.tokens
            → at_front first ≡ begun top first
            → IfErr result (Stands octets) }
    {
        match self.tokens.next()? {
            None => Ok(number),
            Some(token) => Err(self.tokens.refuse(TextFault::Junk { octet: token.start })),
        }
    }

    // Reads a text that begins with this string: the string alone, or a dictionary without braces.
    fn string_first(&mut self, key: Key<'a>, octet: usize) -> Result<u32, TextFault>
        ensures read { (octets : List ℕ) (at : Located) → at.lexeme ≡ string key.entry
            → at.start ≡ octet → HasRead octets (at ∷ []) self.old.tokens
            → IsLeft self.old.left MAX_DEPTH nothing
            → IfOk result (IsDrafted octets (objects self.new.draft)) }
        ensures stands { (octets : List ℕ) (at : Located) → at.lexeme ≡ string key.entry
            → at.start ≡ octet → HasRead octets (at ∷ []) self.old.tokens
            → IsLeft self.old.left MAX_DEPTH nothing
            → IfErr result (Stands octets) }
    {
        let Some(second) = self.tokens.next()? else {
            return self.string(key.text(), octet, MAX_DEPTH);
        };
        match second.kind {
            TokenKind::Equals => {
                self.first_key(&key, octet)?;
                let number = put_key(&mut self.draft, &key)?;
                let value = self.row_value(BARE_LEVELS)?;
                self.bare_table(key, (number, value))
            }
            TokenKind::Semicolon => {
                self.first_key(&key, octet)?;
                let number = self.string(key.text(), octet, BARE_LEVELS)?;
                self.bare_table(key, (number, number))
            }
            _ => {
                self.charge(octet, MAX_DEPTH, key.payload())?;
                let octet = second.start;
                Err(self.tokens.refuse(TextFault::Junk { octet }))
            }
        }
    }

    // Counts a dictionary without braces, as a node at its first token, and its first key. The
    // token after the key was read already.
    fn first_key(&mut self, key: &Key<'_>, octet: usize) -> Result<(), TextFault>
        ensures spent { OnOk result (Spends self.old.left 2 (2 * length key.now) self.new.left) }
        ensures valid { OnOk result (AreUnits key.now) }
        ensures tokens { self.new.tokens ≡ self.old.tokens }
        ensures draft { self.new.draft ≡ self.old.draft }
        ensures stands { (octets : List ℕ) (at after : Located) → at.lexeme ≡ string key.now
            → at.start ≡ octet → HasRead octets (at ∷ after ∷ []) self.old.tokens
            → IsLeft self.old.left MAX_DEPTH nothing
            → IfErr result (Stands octets) }
    {
        self.charge(octet, MAX_DEPTH, 0)?;
        self.charge(octet, BARE_LEVELS, key.payload())
    }

    // Reads a dictionary without braces after its first row.
    fn bare_table(&mut self, key: Key<'a>, row: (u32, u32)) -> Result<u32, TextFault>
        ensures read { (octets : List ℕ) (left : Left) (v : Plist)
            → SpellsRow (objects self.old.draft) key.entry row v
            → IsLeft left BARE_LEVELS (opened nothing)
            → TakesRow left BARE_LEVELS key.entry v self.old.left
            → ReadsRow octets [] key.entry v self.old.tokens
            → IfOk result (IsDrafted octets (objects self.new.draft)) }
        ensures stands { (octets : List ℕ) (left : Left) (v : Plist)
            → SpellsRow (objects self.old.draft) key.entry row v
            → IsLeft left BARE_LEVELS (opened nothing)
            → TakesRow left BARE_LEVELS key.entry v self.old.left
            → ReadsRow octets [] key.entry v self.old.tokens
            → IfErr result (Stands octets) }
    {
        let mut keys = KeySet::new(self.alloc);
        let mut rows = Entries::new(self.alloc);
        rows.push(row)?;
        keys.insert(self.alloc, &key)?;
        while let Some(first) = self.tokens.next_first()? {
            let octet = first.start();
            let Some(key) = first.key() else {
                return Err(self.tokens.refuse(TextFault::Junk { octet }));
            };
            let known = keys.insert(self.alloc, &key)?;
            let row = self.row(&key, octet, BARE_LEVELS, known)?;
            rows.push(row)?;
        }
        put_table(&mut self.draft, &rows)
    }
}

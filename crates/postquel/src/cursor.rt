//! A place among the tokens, with the limits on statements.

ghost use Rattle.std.specs.Prelude.{◌≡◌, ◌≢◌, ◌<◌, ◌≤◌, length, IfOk, IfErr};
ghost use Rattle.postquel.specs.Input as spec;
ghost use Rattle.postquel.specs.Input.{Reads};
ghost use Rattle.postquel.specs.Start as view;

use crate::class::{Class, Key, class_of};
use crate::counts::Counts;
use postquel_tokens::{Sign, Spot, Token, What};
use std::alloc::{AllocError, AllocFailed};
use std::marker::Model;

/// Why a rule stopped. The cursor then stands at the token that it stopped at.
#[derive(Debug, Drop)]
pub enum Halt {
    Refused(What),
    NoMemory,
}

impl From<AllocError> for Halt {
    ghost use Rattle.std.specs.Prelude.{◌≡◌};
    ghost use Rattle.postquel.specs.declared.cursor.Halt.TheVariants.{NoMemory};

    ghost from_gives = { λ _ made. made ≡ NoMemory };

    fn from(_error: AllocError) -> Halt {
        Halt::NoMemory
    }
}

impl<T: Drop> From<AllocFailed<T>> for Halt {
    ghost use Rattle.std.specs.Prelude.{◌≡◌};
    ghost use Rattle.postquel.specs.declared.cursor.Halt.TheVariants.{NoMemory};

    ghost from_gives = { λ _ made. made ≡ NoMemory };

    fn from(_refused: AllocFailed<T>) -> Halt {
        Halt::NoMemory
    }
}

#[derive(Drop)]
pub struct Cursor<'a> {
    rest: &'a [Token],
    counts: Counts,
}

impl<'a> Model for Cursor<'a> {
    ghost use Rattle.postquel.specs.Input.{Input};

    ghost Value = { Input };

    ghost use Rattle.postquel.specs.View.{input_of};

    ghost view = { input_of };
}

fn first(tokens: &[Token]) -> Class
    ensures { result ≡ spec.first tokens.now }
{
    match tokens {
        [] => Class::End,
        [token, ..] => class_of(&token.kind),
    }
}

fn is_mark(class: Class, sign: Sign) -> bool
    ensures { result ≡ spec.is_mark sign class }
{
    match class {
        Class::Mark(found) => found == sign,
        _ => false,
    }
}

fn is_key(class: Class, key: Key) -> bool
    ensures { result ≡ spec.is_key key class }
{
    match class {
        Class::Key(found) => found == key,
        _ => false,
    }
}

impl<'a> Cursor<'a> {
    pub fn new(tokens: &'a [Token]) -> Cursor<'a>
        ensures { result ≡ view.start_of tokens.now }
    {
        Cursor {
            rest: tokens,
            counts: Counts {
                tokens: 0,
                statements: 0,
            },
        }
    }

    /// Where the next token stands.
    pub fn spot(&self) -> Spot
        ensures { result ≡ view.spot_of self.now.rest }
    {
        match self.rest {
            [] => Spot { line: 1, col: 1 },
            [token, ..] => token.spot,
        }
    }

    /// The class of the next token.
    pub fn peek(&self) -> Class
        ensures { result ≡ spec.first self.now.rest }
    {
        first(self.rest)
    }

    /// The class of the token behind the next one.
    pub fn second(&self) -> Class
        ensures { result ≡ spec.second self.now.rest }
    {
        match self.rest {
            [] => Class::End,
            [_, rest @ ..] => first(rest),
        }
    }

    /// Whether the next token is this key.
    pub fn is_at(&self, key: Key) -> bool
        ensures { result ≡ spec.is_key key (spec.first self.now.rest) }
    {
        is_key(self.peek(), key)
    }

    /// How many tokens are left.
    pub fn left(&self) -> usize
        ensures { result ≡ length self.now.rest }
    {
        self.rest.len()
    }

    /// Passes the next token, unless a limit bars it.
    #[tactic(auto, unfolding(crate::specs::Input::take))]
    pub fn take(&mut self) -> Result<&'a Token, Halt>
        ensures ok { IfOk result (λ t. spec.take self.old ≡ Ok (t.now, self.new)) }
        ensures err { IfErr result (λ e. Reads (spec.take self.old) (Err e) self.new) }
    {
        let [token, rest @ ..] = self.rest else {
            return Err(Halt::Refused(What::Unexpected));
        };
        let class = class_of(&token.kind);
        if let Some(what) = self.counts.barred(class) {
            return Err(Halt::Refused(what));
        }
        self.counts = self.counts.after(class);
        self.rest = rest;
        Ok(token)
    }

    /// Passes the next token, which is to be this mark.
    #[tactic(auto, unfolding(crate::specs::Input::expect))]
    pub fn expect(&mut self, sign: Sign) -> Result<(), Halt>
        ensures { Reads (spec.expect sign self.old) result self.new }
    {
        if !is_mark(self.peek(), sign) {
            return Err(Halt::Refused(What::Unexpected));
        }
        self.take()?;
        Ok(())
    }

    /// Passes the next token, which is to be this key.
    #[tactic(auto, unfolding(crate::specs::Input::expect_key))]
    pub fn expect_key(&mut self, key: Key) -> Result<(), Halt>
        ensures { Reads (spec.expect_key key self.old) result self.new }
    {
        if !is_key(self.peek(), key) {
            return Err(Halt::Refused(What::Unexpected));
        }
        self.take()?;
        Ok(())
    }
}

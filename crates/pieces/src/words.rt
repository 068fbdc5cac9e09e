ghost use Rattle.std.specs.Prelude.{◌≡◌, ℕ, Bool, List, [], ◌∷◌, MatchOption};
ghost use Rattle.std.specs.Option.{option_map};
ghost use Rattle.std.specs.Fn.{FnOnceReturnsAt};
ghost use Rattle.model.specs.Kinds.{cut};
ghost use Rattle.model.specs.Grammar.{piece, behind, no_more};
ghost use Rattle.pieces.specs.Words.{words_of, left_of, behind_word, behind_if};

// What stands before the first such byte, and what stands behind it. Where there is none, all is before.
pub fn cut_at(text: &[u8], byte: u8) -> (&[u8], Option<&[u8]>)
    ensures first { result.0.now ≡ piece byte text.now }
    ensures rest { option_map (λ x. x.now) result.1 ≡ behind byte text.now }
{
    let end = text.iter().take_while(|c| **c != byte).count();
    (&text[..end], text.get(end + 1..))
}

// The words of a text that are still to be read. One space parts two words, so a word may be empty.
#[derive(Clone, Copy)]
pub struct Words<'a> {
    // none behind the last word
    rest: Option<&'a [u8]>,
}

impl<'a> Words<'a> {
    pub fn of(text: &'a [u8]) -> Words<'a>
        ensures { words_of result ≡ cut 32 text.now }
    {
        Words { rest: Some(text) }
    }

    // The first word, and those behind it.
    #[tactic(auto, using(model::proofs::Grammars::cut_step))]
    pub fn split_first(self) -> Option<(&'a [u8], Words<'a>)>
        ensures { MatchOption result (words_of self.entry ≡ []) (λ x. words_of self.entry ≡ x.0.now ∷ words_of x.1) }
    {
        let (word, rest) = cut_at(self.rest?, b' ');
        Some((word, Words { rest }))
    }

    // The words behind the first, if that is this one.
    pub fn strip_first(self, word: &[u8]) -> Option<Words<'a>>
        ensures { left_of result ≡ behind_word word.now (words_of self.entry) }
    {
        let (first, rest) = self.split_first()?;
        (first == word).then_some(rest)
    }

    // The words behind the first, if that passes the test, or else all of them.
    pub fn skip_if<P: FnOnce(&[u8]) -> bool>(self, passes: P) -> Words<'a>
        requires { P.IsAlwaysCallable passes }
        ensures { (test : List ℕ → Bool) → ((word : List ℕ) (b : Bool) → FnOnceReturnsAt P.FnOnce passes word b → b ≡ test word) → words_of result ≡ behind_if test (words_of self.entry) }
    {
        match self.split_first() {
            Some((word, rest)) if passes(word) => rest,
            _ => self,
        }
    }

    #[tactic(auto, using(model::proofs::Grammars::cut_step))]
    pub fn is_empty(self) -> bool
        ensures { result ≡ no_more (words_of self.entry) }
    {
        self.rest.is_none()
    }
}

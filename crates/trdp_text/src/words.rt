//! The words of a line, with exactly one space between two of them.

ghost use Rattle.std.specs.Prelude.{◌≡◌, ◌∷◌, ◌++◌, [], take, true, false, OnOk, OnErr, IfErr};
ghost use Rattle.trdp_text.specs.Words.{words_of, first_word, other_words, third_word};
ghost use Rattle.trdp_text.specs.Words.{are_between};
ghost use Rattle.trdp_text.specs.WordsLeft.{words_left, words_at};
ghost use Rattle.trdp_text.specs.declared.words.TheConstants.{WORDS_ROOM};

use crate::fault::LineFault;
use crate::split::split_at_byte;
use arrayvec::ArrayVec;

/// The word with which a call begins.
pub(crate) const CALL: &[u8] = b"call";

/// One more than the words of any form's line: a line with that many words has too many, whatever
/// follows.
pub(crate) const WORDS_ROOM: usize = 15;

/// The first words of a line.
pub(crate) type CutWords<'a> = ArrayVec<&'a [u8], WORDS_ROOM>;

/// Adds the words of a text, one more than it has spaces, as far as there is room. Between two
/// adjacent spaces is an empty word.
pub(crate) fn cut_words<'a>(words: &mut CutWords<'a>, text: &'a [u8])
    ensures { words_at words.new.items
        ≡ take WORDS_ROOM (words_at words.old.items ++ words_of text.now) }
{
    let mut rest = text;
    while !words.is_full() {
        match split_at_byte(b' ', rest) {
            Some((word, behind)) => {
                words.push(word);
                rest = behind;
            }
            None => {
                words.push(rest);
                return;
            }
        }
    }
}

/// The words of a line that are still to be read, from the first to the last.
#[derive(Clone, Copy)]
pub(crate) struct Words<'w, 'a> {
    /// Those words; empty where all were read.
    left: &'w [&'a [u8]],
}

impl<'w, 'a> Words<'w, 'a> {
    /// These words, of which none was read.
    pub(crate) fn of(words: &'w CutWords<'a>) -> Words<'w, 'a>
        ensures { words_left result ≡ words_at words.now.items }
    {
        Words {
            left: words.as_slice(),
        }
    }

    /// Checks that `count` words are left.
    ///
    /// # Errors
    /// `Count` at any other number of words.
    pub(crate) fn expect(&self, count: usize) -> Result<(), LineFault>
        ensures right { OnOk result (are_between count count (words_left self.now) ≡ true) }
        ensures wrong { OnErr result (are_between count count (words_left self.now) ≡ false) }
        ensures fault { IfErr result (λ fault. fault ≡ LineFault.Count) }
    {
        self.expect_between(count, count)
    }

    /// Checks that the number of words left is in this range.
    ///
    /// # Errors
    /// `Count` at any other number of words.
    pub(crate) fn expect_between(&self, least: usize, most: usize) -> Result<(), LineFault>
        ensures right { OnOk result (are_between least most (words_left self.now) ≡ true) }
        ensures wrong { OnErr result (are_between least most (words_left self.now) ≡ false) }
        ensures fault { IfErr result (λ fault. fault ≡ LineFault.Count) }
    {
        if least <= self.left.len() && self.left.len() <= most {
            Ok(())
        } else {
            Err(LineFault::Count)
        }
    }

    /// The first word; an empty one where there is none.
    pub(crate) fn first(mut self) -> &'a [u8]
        ensures { result.now ≡ first_word (words_left self.entry) }
    {
        self.next_word()
    }

    /// The third word; an empty one where there is none.
    pub(crate) fn third(mut self) -> &'a [u8]
        ensures { result.now ≡ third_word (words_left self.entry) }
    {
        self.next_word();
        self.next_word();
        self.next_word()
    }

    /// Whether no word is left.
    #[tactic(auto, unfolding(crate::specs::Words::first_word, crate::specs::Words::other_words))]
    pub(crate) fn are_over(&self) -> bool
        ensures over { result ≡ true → words_left self.now ≡ [] }
        ensures left { result ≡ false
            → words_left self.now
            ≡ first_word (words_left self.now) ∷ other_words (words_left self.now) }
    {
        self.left.is_empty()
    }

    /// The next word; an empty one past the last.
    #[tactic(auto, unfolding(crate::specs::Words::first_word, crate::specs::Words::other_words))]
    pub(crate) fn next_word(&mut self) -> &'a [u8]
        ensures word { result.now ≡ first_word (words_left self.old) }
        ensures rest { words_left self.new ≡ other_words (words_left self.old) }
    {
        match self.left {
            [word, rest @ ..] => {
                self.left = rest;
                word
            }
            [] => &[],
        }
    }
}

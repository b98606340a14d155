//! The tokens of a feed.

ghost use Rattle.std.specs.Prelude.{◌≡◌, ◌≤◌, ◌<◌, ℕ, true, false, List, [], IfOk, OnOk, OnErr, IsOk, length, take, drop};
ghost use Rattle.rvc_base.specs.Storing.{IsSize};
ghost use Rattle.rvc_io.specs.Feeds.{PullsOnly, ReadFails};
ghost use Rattle.net_model.specs.PortFile.{token_bytes, token_of};
ghost use Rattle.port_files.specs.Coming.{coming_on, EndIsTrue, EndsWith, GivesToken, KeepsComing, is_short};

use crate::coding::{decode, token_bytes};
use crate::piece::Piece;
use rvc_base::{Memory, Num, Scalar};
use rvc_io::{Failed, Feeds};
use std::alloc::Global;
use std::marker::Model;

/// What comes next on a feed.
#[derive(Clone, Copy, Debug, PartialEq, Eq)]
pub enum Next {
    Token(Num),
    /// No token is left. `rest` bytes are, which are fewer than a token has.
    End { rest: u8 },
    /// Bytes couldn't be pulled.
    Failed,
}

/// Reads the tokens of one feed, in whatever pieces its bytes are pulled.
///
/// Contracts see the type of the tokens, the bytes that were pulled and not given yet, and whether the
/// end was seen. All memory is taken by [`TokenFeed::new`].
#[derive(Drop)]
pub struct TokenFeed {
    kind: Scalar,
    piece: Piece,
    ended: bool,
}

impl Model for TokenFeed {
    ghost use Rattle.std.specs.Prelude.{◌≡◌, ◌<◌, true, length};
    ghost use Rattle.rvc_base.specs.Storing.{IsSize};
    ghost use Rattle.net_model.specs.PortFile.{token_bytes};
    ghost use Rattle.port_files.specs.Coming.{Reading};

    ghost Value = { Reading };

    ghost view = { λ t. record { kind = t.kind; pulled = t.piece; ended = t.ended } };

    ghost invariant = { λ t. IsSize t.kind
        × (t.ended ≡ true → length t.piece < token_bytes t.kind) };
}

impl TokenFeed {
    ghost use Rattle.port_files.specs.Answer.{IfToken, IfEnd, OnFailed};

    /// A reader of tokens of this type, of a feed from which nothing was pulled yet.
    ///
    /// # Errors
    ///
    /// `Memory` if memory runs out.
    pub fn new(alloc: Global, kind: Scalar) -> Result<TokenFeed, Memory>
        requires { IsSize kind }
        ensures kind { IfOk result (λ t. t.kind ≡ kind) }
        ensures pulled { IfOk result (λ t. t.pulled ≡ []) }
        ensures ended { IfOk result (λ t. t.ended ≡ false) }
    {
        let piece = Piece::new(alloc)?;
        Ok(TokenFeed {
            kind,
            piece,
            ended: false,
        })
    }

    /// What comes next on `feed`, which is the same one of the same `feeds` in each call.
    ///
    /// After an end each further call gives the same end, and pulls nothing.
    ///
    /// # Errors
    ///
    /// `Failed` if bytes couldn't be pulled: the failure was counted (`failed`), the tokens still to come are those that
    /// were to come before (`failed_coming`), and of what was pulled no whole token is left (`failed_short`).
    pub fn next<F: Feeds>(&mut self, feed: u32, feeds: &mut F) -> Next
        requires open { (F.feeds feeds.old).is_open feed ≡ true }
        requires same_feed { EndIsTrue self.old ((F.feeds feeds.old).left feed) }
        ensures token { IfToken result (λ v. GivesToken self.old.kind v
            (coming_on self.old.pulled (F.feeds feeds.old) feed)
            (coming_on self.new.pulled (F.feeds feeds.new) feed)) }
        ensures end { IfEnd result (λ rest. EndsWith self.old.kind rest
            (coming_on self.old.pulled (F.feeds feeds.old) feed)) }
        ensures end_again { IfEnd result (λ rest. (self.new.ended ≡ true)
            × (rest ≡ length self.new.pulled)) }
        ensures end_as_before { self.old.ended ≡ true → result ≡ Next.End (length self.old.pulled) }
        ensures end_coming { IfEnd result (λ _. KeepsComing F.feeds feeds.old feeds.new feed
            self.old.pulled self.new.pulled) }
        ensures failed { OnFailed result (ReadFails F.feeds feeds.old feeds.new) }
        ensures failed_coming { OnFailed result (KeepsComing F.feeds feeds.old feeds.new feed
            self.old.pulled self.new.pulled) }
        ensures failed_short { OnFailed result (is_short self.new ≡ true) }
        ensures kind { self.new.kind ≡ self.old.kind }
        ensures still_same_feed { EndIsTrue self.new ((F.feeds feeds.new).left feed) }
        ensures elsewhere { PullsOnly F.feeds feeds.old feeds.new feed }
    {
        let Ok(()) = self.gather(feed, feeds) else {
            return Next::Failed;
        };
        self.give()
    }

    /// Whether neither a token's bytes nor the end were seen.
    fn is_short(&self) -> bool
        ensures { result ≡ is_short self.now }
    {
        !self.ended && self.piece.len() < token_bytes(self.kind)
    }

    /// Pulls until a token's bytes or the end were seen.
    fn gather<F: Feeds>(&mut self, feed: u32, feeds: &mut F) -> Result<(), Failed>
        requires open { (F.feeds feeds.old).is_open feed ≡ true }
        requires same_feed { EndIsTrue self.old ((F.feeds feeds.old).left feed) }
        ensures ready { OnOk result (is_short self.new ≡ false) }
        ensures at_end { self.old.ended ≡ true → IsOk result × (self.new ≡ self.old) }
        ensures coming { KeepsComing F.feeds feeds.old feeds.new feed self.old.pulled
            self.new.pulled }
        ensures failed { OnErr result (ReadFails F.feeds feeds.old feeds.new) }
        ensures failed_short { OnErr result (is_short self.new ≡ true) }
        ensures kind { self.new.kind ≡ self.old.kind }
        ensures still_same_feed { EndIsTrue self.new ((F.feeds feeds.new).left feed) }
        ensures elsewhere { PullsOnly F.feeds feeds.old feeds.new feed }
    {
        while self.is_short() {
            let Ok(()) = self.pull_once(feed, feeds) else {
                return Err(Failed);
            };
        }
        Ok(())
    }

    /// Pulls once.
    fn pull_once<F: Feeds>(&mut self, feed: u32, feeds: &mut F) -> Result<(), Failed>
        requires open { (F.feeds feeds.old).is_open feed ≡ true }
        requires short { is_short self.old ≡ true }
        ensures grows { OnOk result (length self.old.pulled ≤ length self.new.pulled) }
        ensures nearer { OnOk result (self.new.ended ≡ false
            → length self.old.pulled < length self.new.pulled) }
        ensures coming { KeepsComing F.feeds feeds.old feeds.new feed self.old.pulled
            self.new.pulled }
        ensures failed { OnErr result (ReadFails F.feeds feeds.old feeds.new) }
        ensures failed_same { OnErr result (self.new ≡ self.old) }
        ensures kind { self.new.kind ≡ self.old.kind }
        ensures still_same_feed { EndIsTrue self.new ((F.feeds feeds.new).left feed) }
        ensures elsewhere { PullsOnly F.feeds feeds.old feeds.new feed }
    {
        let Ok(count) = self.piece.fill(feed, feeds) else {
            return Err(Failed);
        };
        self.ended = count == 0;
        Ok(())
    }

    /// Gives the first token that was pulled, or the end if it was seen.
    fn give(&mut self) -> Next
        requires { is_short self.old ≡ false }
        ensures token { IfToken result (λ v. (self.old.ended ≡ false)
            × (token_bytes self.old.kind ≤ length self.old.pulled)
            × (v ≡ token_of self.old.kind (take (token_bytes self.old.kind) self.old.pulled))
            × (self.new.pulled ≡ drop (token_bytes self.old.kind) self.old.pulled)) }
        ensures end { IfEnd result (λ rest. (self.old.ended ≡ true)
            × (rest ≡ length self.old.pulled) × (rest < token_bytes self.old.kind)
            × (self.new.pulled ≡ self.old.pulled)) }
        ensures not_failed { OnFailed result ⊥ }
        ensures kind { self.new.kind ≡ self.old.kind }
        ensures ended { self.new.ended ≡ self.old.ended }
    {
        if self.ended {
            return Next::End {
                rest: self.piece.len() as u8,
            };
        }
        let size = token_bytes(self.kind);
        let token = decode(self.kind, self.piece.first(size));
        self.piece.skip(size);
        Next::Token(token)
    }
}

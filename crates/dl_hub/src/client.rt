//! A client that came: what was put into its stream, and what of it its link has not taken yet.

ghost use Rattle.std.specs.Prelude.{◌≡◌, ◌≤◌, ◌<◌, ◌^◌, ◌+◌, [], Some, IfSome, IsSomeAnd, option_map, length};
ghost use Rattle.dl_bytes.specs.Limits.{request_limit};
ghost use Rattle.dl_hub.specs.State.{is_open, takes, emptied, with_item, with_reply, without, shut};

use crate::ring::Ring;
use std::marker::Model;

/// A client that came. It has an outbox while it is open; of one that has gone there is how many bytes were left in it,
/// and of how many messages their frames told.
#[derive(Drop)]
pub struct Client {
    outbox: Option<Ring>,
    frames: u64,
    bytes: u64,
    replies: u32,
    left: u64,
    messages: u64,
}

impl Model for Client {
    ghost use Rattle.dl_hub.specs.State.{Client};

    ghost Value = { Client };

    ghost view = { λ c. record { outbox = c.outbox; frames = c.frames; bytes = c.bytes; replies = c.replies; left = c.left; messages = c.messages } };
}

impl Client {
    /// A client with nothing in its stream yet.
    pub fn new(outbox: Ring) -> Client
        ensures { result ≡ record { outbox = Some outbox; frames = 0; bytes = 0; replies = 0; left = 0; messages = 0 } }
    {
        Client {
            outbox: Some(outbox),
            frames: 0,
            bytes: 0,
            replies: 0,
            left: 0,
            messages: 0,
        }
    }

    /// A client that is handed what waited: this many frames, whose bytes the backlog gives up.
    pub fn handed(mut outbox: Ring, backlog: &mut Ring, frames: u64) -> Client
        requires empty { outbox.bytes ≡ [] }
        requires whole { backlog.old.begun ≡ [] }
        requires room { length backlog.old.bytes ≤ outbox.capacity }
        ensures client { result ≡ record {
          outbox = Some (record { bytes = backlog.old.bytes; capacity = outbox.capacity; due = backlog.old.due; begun = [] });
          frames = frames;
          bytes = length backlog.old.bytes;
          replies = 0;
          left = 0;
          messages = 0;
        } }
        ensures emptied { backlog.new ≡ emptied backlog.old }
    {
        let bytes = backlog.len() as u64;
        outbox.take_over(backlog);
        Client {
            outbox: Some(outbox),
            frames,
            bytes,
            replies: 0,
            left: 0,
            messages: 0,
        }
    }

    /// Whether it has an outbox: it came, and has not gone.
    pub fn is_open(&self) -> bool
        ensures { result ≡ is_open self.now }
    {
        self.outbox.is_some()
    }

    /// Whether its outbox can take this many bytes more, or it has none.
    pub fn has_room(&self, more: u64) -> bool
        ensures { result ≡ takes more self.now }
    {
        match &self.outbox {
            Some(outbox) => more <= outbox.room() as u64,
            None => true,
        }
    }

    /// Its outbox.
    pub fn outbox(&self) -> Option<&Ring>
        ensures { option_map (λ r. r.now) result ≡ self.now.outbox }
    {
        self.outbox.as_ref()
    }

    /// How many frames were put into its stream, and how many bytes they have together.
    pub fn put(&self) -> (u64, u64)
        ensures { result ≡ (self.now.frames, self.now.bytes) }
    {
        (self.frames, self.bytes)
    }

    /// How many replies were put into its stream.
    pub fn replies(&self) -> u32
        ensures { result ≡ self.now.replies }
    {
        self.replies
    }

    /// How many bytes were left in its outbox when it went.
    pub fn left(&self) -> u64
        ensures { result ≡ self.now.left }
    {
        self.left
    }

    /// Of how many messages the frames told that were left in its outbox when it went.
    pub fn left_messages(&self) -> u64
        ensures { result ≡ self.now.messages }
    {
        self.messages
    }

    /// Puts a frame into its stream, where it is open, that tells of so many messages.
    pub fn add(&mut self, frame: &[u8], messages: u32)
        requires size { (4 ≤ length frame.now) × (length frame.now ≤ 65535) }
        requires room { IfSome self.old.outbox (λ r. length r.bytes + length frame.now ≤ r.capacity) }
        requires frames { self.old.frames < 2 ^ 63 }
        requires bytes { self.old.bytes + length frame.now < 2 ^ 63 }
        ensures { self.new ≡ with_item frame.now messages self.old }
    {
        if let Some(outbox) = &mut self.outbox {
            outbox.push(frame, messages);
            self.frames += 1;
            self.bytes += frame.len() as u64;
        }
    }

    /// Puts a reply into its stream.
    pub fn add_reply(&mut self, frame: &[u8])
        requires size { (4 ≤ length frame.now) × (length frame.now ≤ 65535) }
        requires room { IsSomeAnd self.old.outbox (λ r. length r.bytes + length frame.now ≤ r.capacity) }
        requires frames { self.old.frames < 2 ^ 63 }
        requires bytes { self.old.bytes + length frame.now < 2 ^ 63 }
        requires replies { self.old.replies < request_limit }
        ensures { self.new ≡ with_reply frame.now self.old }
    {
        self.add(frame, 0);
        self.replies += 1;
    }

    /// Takes this many bytes from the front of its outbox.
    pub fn consume(&mut self, count: usize)
        requires { IsSomeAnd self.old.outbox (λ r. count ≤ length r.bytes) }
        ensures { self.new ≡ without count self.old }
    {
        if let Some(outbox) = &mut self.outbox {
            outbox.consume(count);
        }
    }

    /// Takes its outbox, emptied: it is open no longer.
    pub fn close(&mut self) -> Option<Ring>
        ensures outbox { result ≡ option_map emptied self.old.outbox }
        ensures closed { self.new ≡ shut self.old }
    {
        let mut outbox = self.outbox.take()?;
        self.left = outbox.len() as u64;
        self.messages = outbox.messages();
        outbox.clear();
        Some(outbox)
    }
}

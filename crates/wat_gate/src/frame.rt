// A frame: a body that grows piece by piece, kept as it is written.
ghost use Rattle.std.specs.Prelude.{◌≡◌, ◌+◌, ◌-◌, ◌≤◌, ◌↔◌, [], ◌∷◌, ◌++◌, length, take, drop, IfOk, OnOk, OnErr, IsOk, IsTrue, vec_capacity};
ghost use Rattle.wat_gate.specs.Frame.{body_in, framed, IsFramed};

use std::alloc::{AllocError, Global};
use std::marker::Model;

/// A frame of a gate log: a body of at most 2,000,000 bytes, and room for more of it.
#[derive(Drop)]
pub struct Frame {
    bytes: Vec<u8>,
}

impl Model for Frame {
    ghost use Rattle.std.specs.Prelude.{◌-◌, length, vec_capacity};
    ghost use Rattle.wat_gate.specs.Frame.{FrameView, body_in, IsFramed};

    ghost Value = { FrameView };

    ghost view = { λ frame. record { body = body_in frame.bytes.items; spare = vec_capacity frame.bytes - length frame.bytes.items } };

    ghost invariant = { λ frame. IsFramed frame.bytes.items };
}

impl Frame {
    /// A frame whose body has no bytes yet.
    pub fn new(alloc: Global) -> Result<Self, AllocError>
        ensures { IfOk result (λ frame. frame.body ≡ []) }
    {
        Ok(Frame {
            bytes: [0; 5].to_vec(alloc)?,
        })
    }

    /// The body's length in bytes.
    pub fn len(&self) -> usize
        ensures { result ≡ length self.now.body }
    {
        self.bytes.len() - 5
    }

    /// Whether the body has no bytes. Such a frame is not appended to a log.
    pub fn is_empty(&self) -> bool
        ensures { IsTrue result ↔ (length self.now.body ≡ 0) }
    {
        self.len() == 0
    }

    /// The body.
    pub fn as_slice(&self) -> &[u8]
        ensures { result.now ≡ self.now.body }
    {
        &self.bytes[4..self.bytes.len() - 1]
    }

    /// Makes room for so many bytes more, so that pushes of these need no memory.
    pub fn reserve(&mut self, additional: usize) -> Result<(), AllocError>
        ensures room { OnOk result (additional ≤ self.new.spare) }
        ensures kept { self.old.spare ≤ self.new.spare }
        ensures had_room { additional ≤ self.old.spare → IsOk result }
        ensures body { self.new.body ≡ self.old.body }
    {
        self.bytes.reserve(additional)
    }

    /// Adds bytes at the body's end. Within the room it succeeds, and after a refusal the body is as before.
    pub fn push(&mut self, bytes: &[u8]) -> Result<(), AllocError>
        requires { length self.old.body + length bytes.now ≤ 2000000 }
        ensures ok { OnOk result (self.new.body ≡ self.old.body ++ bytes.now) }
        ensures err { OnErr result (self.new.body ≡ self.old.body) }
        ensures had_room { length bytes.now ≤ self.old.spare → IsOk result }
        ensures spare { OnOk result (self.old.spare ≤ self.new.spare + length bytes.now) }
    {
        add_to_body(&mut self.bytes, bytes)
    }

    /// Takes the body away and keeps its room.
    pub fn clear(&mut self)
        ensures body { self.new.body ≡ [] }
        ensures spare { self.old.spare + length self.old.body ≤ self.new.spare }
    {
        self.bytes.truncate(5);
        paste(&mut self.bytes, 0, &[0; 5]);
    }

    // What is written behind the gate: the length, the body, and the next gate, which is closed.
    pub(crate) fn as_written(&self) -> &[u8]
        ensures bytes { result.now ≡ framed self.now.body }
        ensures short { length self.now.body ≤ 2000000 }
    {
        &self.bytes
    }
}

// Adds bytes at the end of the body, and writes its length anew.
fn add_to_body(held: &mut Vec<u8>, bytes: &[u8]) -> Result<(), AllocError>
    requires framed { IsFramed held.old.items }
    requires short { length (body_in held.old.items) + length bytes.now ≤ 2000000 }
    ensures ok { OnOk result (held.new.items ≡ framed (body_in held.old.items ++ bytes.now)) }
    ensures err { OnErr result (held.new.items ≡ held.old.items) }
    ensures had_room { length bytes.now ≤ vec_capacity held.old - length held.old.items → IsOk result }
    ensures capacity { vec_capacity held.old ≤ vec_capacity held.new }
{
    let gate = held.len() - 1;
    let body = (gate - 4 + bytes.len()) as u32;
    held.reserve(bytes.len())?;
    held.truncate(gate);
    held.extend_from_slice(bytes)?;
    held.push(0)?;
    paste(held, 0, &body.to_be_bytes());
    Ok(())
}

fn paste(held: &mut Vec<u8>, at: usize, bytes: &[u8])
    requires { at + length bytes.now ≤ length held.old.items }
    ensures items { held.new.items ≡ take at held.old.items ++ bytes.now ++ drop (at + length bytes.now) held.old.items }
    ensures capacity { vec_capacity held.new ≡ vec_capacity held.old }
{
    held[at..at + bytes.len()].copy_from_slice(bytes);
}

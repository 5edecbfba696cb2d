//! Output that was not handed over yet.
//! It must not know what the bytes mean.

ghost use Rattle.std.specs.Prelude.{◌≡◌, ◌+◌, ◌≤◌, ◌++◌, [], IfOk, length, nat_lt, replicate};
ghost use Rattle.std.specs.Vec.{vec_capacity};

use std::alloc::{AllocError, Global};

/// How many bytes there is room for.
const ROOM: usize = 8192;

/// No statement writes more bytes than this.
const SPARE: usize = 64;

/// Bytes, with room for `ROOM` of them.
#[derive(Drop)]
pub struct Pending {
    pub bytes: Vec<u8>,
    ghost roomy: { 8192 ≤ vec_capacity bytes },
}

impl Pending {
    pub fn new(alloc: Global) -> Result<Pending, AllocError>
        ensures { IfOk result (λ p. p.bytes.items ≡ []) }
    {
        let bytes = Vec::with_capacity(alloc, ROOM)?;
        Ok(Pending { bytes })
    }

    /// Whether there is less room than a statement can need.
    #[inline]
    pub fn is_short(&self) -> bool
        ensures { result ≡ nat_lt 8192 (length self.now.bytes.items + 64) }
    {
        ROOM < self.bytes.len() + SPARE
    }

    /// Adds bytes to the end.
    pub fn put(&mut self, text: &[u8])
        requires { length self.old.bytes.items + length text.now ≤ 8192 }
        ensures { self.new.bytes.items ≡ self.old.bytes.items ++ text.now }
    {
        match self.bytes.extend_from_slice(text) {
            Ok(()) => {}
            Err(_) => unreachable!(),
        }
    }

    /// Adds blanks to the end.
    pub fn put_blanks(&mut self, count: usize)
        requires { length self.old.bytes.items + count ≤ 8192 }
        ensures { self.new.bytes.items ≡ self.old.bytes.items ++ replicate count 32 }
    {
        let all = self.bytes.len() + count;
        match self.bytes.resize(all, b' ') {
            Ok(()) => {}
            Err(_) => unreachable!(),
        }
    }

    pub fn as_slice(&self) -> &[u8]
        ensures { result.now ≡ self.now.bytes.items }
    {
        self.bytes.as_slice()
    }

    pub fn clear(&mut self)
        ensures { self.new.bytes.items ≡ [] }
    {
        self.bytes.clear();
    }
}

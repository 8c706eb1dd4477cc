//! A long list of bytes, in pieces. A repeated byte at the end of a piece takes no memory.
ghost use Rattle.std.specs.Prelude.{◌≡◌, ◌<◌, ◌≤◌, ◌+◌, ◌++◌, ◌%◌, IfOk, IfSome, OnErr, OnOk, [], drop, length};
ghost use Rattle.std.specs.Prelude.{take, true};
ghost use Rattle.sector_disk.specs.inside.Pieces.{PiecesAreWhole, pieces_bytes, with_piece};

use crate::piece::Piece;
use std::alloc::{AllocError, Global};
use std::marker::Model;

// The number of bytes of each piece but the last.
const PIECE: usize = 65_536;

// Reads the sector that begins at byte `from` of the joined pieces.
fn read_piece(pieces: &[Piece], from: usize, buffer: &mut [u8])
    requires whole { PiecesAreWhole pieces.now }
    requires sector { length buffer.old ≡ 512 }
    requires place { from % 512 ≡ 0 }
    requires within { from + 512 ≤ length (pieces_bytes pieces.now) }
    ensures { buffer.new ≡ take 512 (drop from (pieces_bytes pieces.now)) }
{
    if let Some(piece) = pieces.get(from / PIECE) {
        piece.read_sector(from % PIECE, buffer);
    }
}

/// A list of bytes, such as the image of a disk, in pieces of 65,536 bytes; the last piece may have
/// fewer. A repeated byte at the end of a piece is stored once, or one for each sector if that at
/// least halves the memory.
#[derive(Debug, Drop)]
pub struct Image {
    pieces: Vec<Piece>,
    count: usize,
}

impl Model for Image {
    ghost use Rattle.std.specs.Prelude.{List, ℕ};

    ghost Value = { List ℕ };

    ghost use Rattle.sector_disk.specs.inside.Pieces.{IsHeldIn, pieces_bytes};

    ghost view = { λ i. pieces_bytes i.pieces.items };

    ghost invariant = { λ i. IsHeldIn i.pieces.items i.count };
}

impl Image {
    /// Returns an image of no bytes. Takes no memory.
    pub fn empty(alloc: Global) -> Image
        ensures { result ≡ [] }
    {
        Image {
            pieces: Vec::new(alloc),
            count: 0,
        }
    }

    /// Makes an image of the bytes of a slice.
    ///
    /// # Errors
    ///
    /// An allocation fails.
    pub fn from_slice(alloc: Global, bytes: &[u8]) -> Result<Image, AllocError>
        ensures { IfOk result (λ image. image ≡ bytes.now) }
    {
        let mut image = Image::empty(alloc);
        let mut rest = bytes;
        while !rest.is_empty() {
            let (piece, later) = rest.split_at(rest.len().min(PIECE));
            image.push_slice(alloc, piece)?;
            rest = later;
        }
        Ok(image)
    }

    /// Returns the bytes as a vector.
    ///
    /// # Errors
    ///
    /// An allocation fails.
    pub fn to_vec(&self, alloc: Global) -> Result<Vec<u8>, AllocError>
        ensures { IfOk result (λ bytes. bytes.items ≡ self.now) }
    {
        let mut bytes = Vec::with_capacity(alloc, self.count)?;
        for piece in &self.pieces {
            piece.append_to(&mut bytes)?;
        }
        Ok(bytes)
    }

    /// Returns the bytes as a vector. Each piece is dropped after it is copied.
    ///
    /// # Errors
    ///
    /// An allocation fails.
    pub fn into_vec(self, alloc: Global) -> Result<Vec<u8>, AllocError>
        ensures { IfOk result (λ bytes. bytes.items ≡ self) }
    {
        let Image { mut pieces, count } = self;
        let mut bytes = Vec::with_capacity(alloc, count)?;
        pieces.reverse();
        while let Some(piece) = pieces.pop() {
            piece.append_to(&mut bytes)?;
        }
        Ok(bytes)
    }

    /// Returns the number of bytes.
    pub fn len(&self) -> usize
        ensures { result ≡ length self.now }
    {
        self.count
    }

    /// Appends the bytes of `piece` as one piece.
    ///
    /// # Errors
    ///
    /// An allocation fails; then nothing is changed.
    pub fn push_slice(&mut self, alloc: Global, piece: &[u8]) -> Result<(), AllocError>
        requires whole { length self.old % 65536 ≡ 0 }
        requires some { 0 < length piece.now }
        requires few { length piece.now ≤ 65536 }
        requires fits { length self.old + length piece.now < 18446744073709551616 }
        ensures ok { OnOk result (self.new ≡ self.old ++ piece.now) }
        ensures err { OnErr result (self.new ≡ self.old) }
    {
        self.pieces.push(Piece::from_slice(alloc, piece)?)?;
        self.count += piece.len();
        Ok(())
    }

    /// Replaces the 65,536 bytes from byte `from` on, which are one piece, by those of `piece`.
    ///
    /// # Errors
    ///
    /// An allocation fails; then nothing is changed.
    pub(crate) fn replace(
        &mut self,
        alloc: Global,
        from: usize,
        piece: &[u8],
    ) -> Result<(), AllocError>
        requires place { from % 65536 ≡ 0 }
        requires piece { length piece.now ≡ 65536 }
        requires within { from + 65536 ≤ length self.old }
        ensures ok { OnOk result (self.new ≡ with_piece from piece.now self.old) }
        ensures err { OnErr result (self.new ≡ self.old) }
    {
        self.pieces[from / PIECE] = Piece::from_slice(alloc, piece)?;
        Ok(())
    }

    /// Reads bytes from byte `from` on, if they are all in one piece that stores its bytes as they
    /// are. Returns whether this is so.
    pub(crate) fn read_run(&self, from: usize, buffer: &mut [u8]) -> bool
        ensures within { result ≡ true → from + length buffer.old ≤ length self.now }
        ensures read { result ≡ true → buffer.new ≡ take (length buffer.old) (drop from self.now) }
    {
        match self.pieces.get(from / PIECE) {
            Some(piece) => piece.read_run(from % PIECE, buffer),
            None => false,
        }
    }

    /// Returns the `count` bytes from byte `from` on, if they are all in one piece that stores its
    /// bytes as they are.
    pub(crate) fn stored(&self, from: usize, count: usize) -> Option<&[u8]>
        ensures within { IfSome result (λ part. from + count ≤ length self.now) }
        ensures part { IfSome result (λ part. part.now ≡ take count (drop from self.now)) }
    {
        self.pieces.get(from / PIECE)?.stored(from % PIECE, count)
    }

    /// Reads the sector that begins at byte `from`.
    pub fn read_sector(&self, from: usize, buffer: &mut [u8])
        requires sector { length buffer.old ≡ 512 }
        requires place { from % 512 ≡ 0 }
        requires within { from + 512 ≤ length self.now }
        ensures { buffer.new ≡ take 512 (drop from self.now) }
    {
        read_piece(&self.pieces, from, buffer);
    }
}

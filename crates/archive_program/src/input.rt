// The input of the program, read to its end.
ghost use Rattle.std.specs.Prelude.{◌≡◌, ◌<◌, ◌≤◌, length, vec_len, IfOk, IfErr};
ghost use Rattle.archives.specs.Changes.{outcome};
ghost use Rattle.archive_program.specs.Input.{AddsBytes, IsInputCause, ReadsInput, TakesPiece};
ghost use Rattle.archive_program.specs.declared.input.InputError.TheVariants.{Mem};

use blob_device::{IoFault, Source};
use std::alloc::{AllocError, Global};

/// The most bytes that an input may have.
pub const INPUT_LIMIT: usize = 1 << 24;

// How many bytes are asked for at a time.
const PIECE: usize = 1 << 16;

/// Why an input was not read.
#[derive(Clone, Copy, Debug, PartialEq, Eq)]
pub enum InputError {
    /// The source failed, and raised its count of faults.
    Fault,
    /// The input has more than [`INPUT_LIMIT`] bytes. One byte more than these was taken.
    TooLong,
    /// There was no memory.
    Mem,
}

impl From<AllocError> for InputError {
    ghost from_gives = { λ _ e. e ≡ Mem };

    fn from(_e: AllocError) -> InputError {
        InputError::Mem
    }
}

/// Reads an input to its end. At most [`INPUT_LIMIT`] + 1 bytes are taken.
pub fn read_input<S: Source>(alloc: Global, input: &mut S) -> Result<Vec<u8>, InputError>
    ensures { ReadsInput S.Source input.old input.new (outcome (λ bytes. bytes.items) result) }
{
    let mut piece = zeros(alloc, PIECE)?;
    let mut bytes = Vec::new(alloc);
    'pieces: while bytes.len() <= INPUT_LIMIT {
        match read_piece(input, piece.as_mut_slice(), &mut bytes) {
            Ok(true) => {}
            Ok(false) => return Ok(bytes),
            Err(e) => return Err(e),
        }
    }
    Err(InputError::TooLong)
}

fn zeros(alloc: Global, len: usize) -> Result<Vec<u8>, AllocError>
    ensures { IfOk result (λ v. vec_len v ≡ len) }
{
    vec![in alloc; 0u8; len]
}

/// Reads one piece more, by way of `piece`, and answers whether there was any.
fn read_piece<S: Source>(
    input: &mut S,
    piece: &mut [u8],
    bytes: &mut Vec<u8>,
) -> Result<bool, InputError>
    requires room { 0 < length piece.old }
    requires within { vec_len bytes.old ≤ INPUT_LIMIT }
    ensures adds { AddsBytes result (vec_len bytes.old) (vec_len bytes.new) }
    ensures cause { IfErr result (IsInputCause (S.faults input.old) (S.faults input.new)) }
    ensures faults { S.faults input.old ≤ S.faults input.new }
    ensures told { S.Tells → TakesPiece result (S.left input.old)
        (S.left input.new) bytes.old.items bytes.new.items }
{
    let most = piece.len().min(INPUT_LIMIT + 1 - bytes.len());
    match input.read(&mut piece[..most]) {
        Ok(count) => {
            bytes.extend_from_slice(&piece[..count])?;
            Ok(count > 0)
        }
        Err(IoFault::Fault) => Err(InputError::Fault),
        Err(IoFault::Mem) => Err(InputError::Mem),
    }
}

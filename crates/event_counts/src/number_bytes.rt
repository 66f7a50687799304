// The bytes of numbers, four of each, the highest first.
ghost use Rattle.std.specs.Prelude.{◌≡◌, ◌++◌, map, OnOk};
ghost use Rattle.std.specs.List.{flat_map};
ghost use Rattle.event_counts.specs.Rows.{count_bytes, list_bytes};

use std::alloc::AllocError;

/// Adds the bytes of the numbers: of eight at a time, then of each that is left.
#[tactic(auto, using(crate::proofs::Blocks::blocks_added))]
pub(crate) fn add_numbers(bytes: &mut Vec<u8>, numbers: &[u32]) -> Result<(), AllocError>
    ensures { OnOk result (bytes.new.items ≡ bytes.old.items ++ list_bytes numbers.now) }
{
    let (blocks, rest) = numbers.as_chunks();
    add_blocks(bytes, blocks)?;
    add_each(bytes, rest)
}

#[tactic(auto, unfolding(crate::specs::Rows::count_bytes))]
fn add_each(bytes: &mut Vec<u8>, numbers: &[u32]) -> Result<(), AllocError>
    ensures { OnOk result (bytes.new.items ≡ bytes.old.items ++ list_bytes numbers.now) }
{
    for number in numbers {
        bytes.extend_from_slice(&number.to_be_bytes())?;
    }
    Ok(())
}

fn add_blocks(bytes: &mut Vec<u8>, blocks: &[[u32; 8]]) -> Result<(), AllocError>
    ensures { OnOk result (bytes.new.items ≡ bytes.old.items ++ flat_map list_bytes blocks.now) }
{
    for block in blocks {
        add_block(bytes, block)?;
    }
    Ok(())
}

#[tactic(auto, using(crate::proofs::Blocks::bytes_joined))]
fn add_block(bytes: &mut Vec<u8>, block: &[u32; 8]) -> Result<(), AllocError>
    ensures { OnOk result (bytes.new.items ≡ bytes.old.items ++ list_bytes block.now) }
{
    let block = bytes_of_each(block);
    bytes.extend_from_slice(block.as_flattened())
}

#[tactic(auto, unfolding(crate::specs::Rows::count_bytes))]
fn bytes_of_each(numbers: &[u32; 8]) -> [[u8; 4]; 8]
    ensures { result ≡ map count_bytes numbers.now }
{
    let mut bytes = [[0; 4]; 8];
    for place in 0..8 {
        bytes[place] = numbers[place].to_be_bytes();
    }
    bytes
}

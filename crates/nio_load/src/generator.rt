//! The script that a load runs: selections over 64 channels, each of them told one key.
ghost use Rattle.std.specs.Prelude.{◌≡◌, ◌++◌, ◌∷◌, [], IfOk, OnOk};
ghost use Rattle.nio_load.specs.Generator.{channel_lines, generated, lines_below, round_lines, selection_lines};
ghost use Rattle.nio_load.specs.Generator.{text_of, wakeup_lines};

use std::alloc::{AllocError, Global};

/// How many channels are registered.
const CHANNELS: u32 = 64;

/// The generated script of so many rounds.
pub fn generate(alloc: Global, rounds: u32) -> Result<Vec<u8>, AllocError>
    ensures { IfOk result (λ text. text.items ≡ generated rounds) }
{
    let mut text = Vec::new(alloc);
    push_line(&mut text, "t1 selector")?;
    push_channels(alloc, &mut text)?;
    push_rounds(alloc, &mut text, rounds)?;
    Ok(text)
}

// A line and its newline.
fn push_line(text: &mut Vec<u8>, line: &str) -> Result<(), AllocError>
    ensures { OnOk result (text.new.items ≡ text.old.items ++ (line.now ++ 10 ∷ [])) }
{
    text.extend_from_slice(line.as_bytes())?;
    text.push(b'\n')?;
    Ok(())
}

fn push_channels(alloc: Global, text: &mut Vec<u8>) -> Result<(), AllocError>
    ensures { OnOk result (text.new.items
        ≡ text.old.items ++ text_of (lines_below CHANNELS channel_lines)) }
{
    for channel in 0..CHANNELS {
        push_channel(alloc, text, channel)?;
    }
    Ok(())
}

fn push_channel(alloc: Global, text: &mut Vec<u8>, channel: u32) -> Result<(), AllocError>
    ensures { OnOk result (text.new.items ≡ text.old.items ++ text_of (channel_lines channel)) }
{
    push_line(text, "t1 channel source")?;
    push_line(text, &format!(in alloc; "t1 blocking c{channel} off")?)?;
    push_line(text, &format!(in alloc; "t1 register s0 c{channel} 1")?)
}

fn push_rounds(alloc: Global, text: &mut Vec<u8>, rounds: u32) -> Result<(), AllocError>
    ensures { OnOk result (text.new.items
        ≡ text.old.items ++ text_of (lines_below rounds round_lines)) }
{
    let mut number: u64 = 1;
    for round in 0..rounds {
        number = (number * 1_103_515_245 + 12_345) % 2_147_483_648;
        push_wakeup(text, round)?;
        push_selection(alloc, text, number / 65_536 % 64)?;
    }
    Ok(())
}

fn push_wakeup(text: &mut Vec<u8>, round: u32) -> Result<(), AllocError>
    ensures { OnOk result (text.new.items ≡ text.old.items ++ text_of (wakeup_lines round)) }
{
    if round % 8 == 0 {
        return push_line(text, "t2 wakeup s0");
    }
    Ok(())
}

fn push_selection(alloc: Global, text: &mut Vec<u8>, key: u64) -> Result<(), AllocError>
    ensures { OnOk result (text.new.items ≡ text.old.items ++ text_of (selection_lines key)) }
{
    push_line(text, "t1 begin s0 now")?;
    push_line(text, &format!(in alloc; "t1 told s0 k{key}:1")?)?;
    push_line(text, &format!(in alloc; "t1 unselect s0 k{key}")?)
}

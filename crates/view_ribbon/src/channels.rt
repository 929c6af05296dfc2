//! The 31 channels of a ribbon in a picture of it.

ghost use Rattle.std.specs.Prelude.{◌≡◌, ◌++◌, ◌≤◌, OnOk, string_bytes};
ghost use Rattle.desk_signals.specs.Rows.{the_signals};
ghost use Rattle.view_ribbon.specs.Channels.{channel_name, channel_text, channels_text, guide_end, guide_top};
ghost use Rattle.view_ribbon.specs.Channels.{name_place, x_of};

use crate::parts::put_between;
use desk_signals::{SIGNALS, Signal};
use std::alloc::{AllocError, Allocator};
use view_galley::text_end;

/// The name of a signal's channel.
fn channel_name(signal: Signal) -> &'static str
    ensures { result.now ≡ channel_name signal }
{
    match signal {
        Signal::A => "A",
        Signal::B => "B",
        Signal::C => "C",
        Signal::D => "D",
        Signal::E => "E",
        Signal::F => "F",
        Signal::G => "G",
        Signal::H => "H",
        Signal::I => "I",
        Signal::J => "J",
        Signal::K => "K",
        Signal::L => "L",
        Signal::M => "M",
        Signal::N => "N",
        Signal::One => "1",
        Signal::Two => "2",
        Signal::Three => "3",
        Signal::Four => "4",
        Signal::Five => "5",
        Signal::Six => "6",
        Signal::Seven => "7",
        Signal::Eight => "8",
        Signal::Nine => "9",
        Signal::Ten => "10",
        Signal::Eleven => "11",
        Signal::Twelve => "12",
        Signal::Thirteen => "13",
        Signal::Fourteen => "14",
        Signal::Fine => "0005",
        Signal::Coarse => "0075",
        Signal::S => "S",
    }
}

/// How far to the right a signal's channel stands.
#[tactic(auto, unfolding(crate::specs::Channels::x_of))]
pub fn x_of(signal: Signal) -> u32
    ensures value { result ≡ x_of signal }
    ensures small { result ≤ 456 }
{
    66 + 13 * (signal as u32)
}

/// Writes a thin line along a channel, which begins there.
#[tactic(auto, unfolding(crate::specs::Channels::guide_top))]
fn put_guide_top<A: Allocator + Copy>(out: &mut String<A>, signal: Signal) -> Result<(), AllocError>
    ensures { OnOk result (string_bytes out.new ≡ string_bytes out.old ++ guide_top signal) }
{
    put_between(out, "<path d=\"M", u128::from(x_of(signal)), " 50")
}

/// Writes where it ends.
#[tactic(auto, unfolding(crate::specs::Channels::guide_end))]
fn put_guide_end<A: Allocator + Copy>(out: &mut String<A>, bottom: u128) -> Result<(), AllocError>
    ensures { OnOk result (string_bytes out.new ≡ string_bytes out.old ++ guide_end bottom) }
{
    put_between(out, "V", bottom, "\" stroke=\"#d9ccab\"/>")
}

/// Writes where the name of a channel stands.
#[tactic(auto, unfolding(crate::specs::Channels::name_place))]
fn put_name_place<A: Allocator + Copy>(
    out: &mut String<A>,
    signal: Signal,
) -> Result<(), AllocError>
    ensures { OnOk result (string_bytes out.new ≡ string_bytes out.old ++ name_place signal) }
{
    put_between(
        out,
        "<text transform=\"translate(",
        u128::from(x_of(signal) + 3),
        ",46) rotate(-60)\">",
    )
}

/// Writes a channel, down to the end of the paper.
fn put_channel<A: Allocator + Copy>(
    out: &mut String<A>,
    bottom: u128,
    signal: Signal,
) -> Result<(), AllocError>
    ensures { OnOk result (string_bytes out.new ≡ string_bytes out.old ++ channel_text bottom signal) }
{
    put_guide_top(out, signal)?;
    put_guide_end(out, bottom)?;
    put_name_place(out, signal)?;
    out.push_str(channel_name(signal))?;
    out.push_str(text_end())
}

/// Writes the channels of signals.
#[tactic(auto, unfolding(crate::specs::Channels::channels_text))]
fn put_channels_of<A: Allocator + Copy>(
    out: &mut String<A>,
    bottom: u128,
    signals: &[Signal],
) -> Result<(), AllocError>
    ensures { OnOk result (string_bytes out.new ≡ string_bytes out.old ++ channels_text bottom signals.now) }
{
    for &signal in signals {
        put_channel(out, bottom, signal)?;
    }
    Ok(())
}

/// Writes the channels, down to the end of the paper.
pub fn put_channels<A: Allocator + Copy>(
    out: &mut String<A>,
    bottom: u128,
) -> Result<(), AllocError>
    ensures { OnOk result (string_bytes out.new ≡ string_bytes out.old ++ channels_text bottom the_signals) }
{
    put_channels_of(out, bottom, &SIGNALS)
}

//! Shows the codec at work, layer by layer, and then carries frames from characters to the line and back.
#![tactic(auto)]

mod agreeing;
mod arithmetics;
mod frames;
mod lists;
mod packets;
mod pairs;
mod words;

fn main(rt: HostRuntime) -> anyhow::Result<()> {
    packets::packet_tail(&rt)?;
    packets::invalid_blocks(&rt)?;
    arithmetics::products(&rt)?;
    arithmetics::examples(&rt)?;
    words::damaged_words(&rt)?;
    pairs::line_codes(&rt)?;
    frames::damaged_frame(&rt)?;
    frames::lost_lock(&rt)?;
    frames::a_list_of_calls(&rt)
}

// Replays the recorded answers of the original (its stdin: oracle/sample/README.md, docs/NUMBERS.md): each call goes
// through the boundary, and all the numbers of its answer are compared with the recorded ones.
#![tactic(auto)]

mod coded;
mod sample;

use coded::Judged;
use host::layout;
use sample::{Answered, Digits, Kind, Sample};
use std::io::{self, Read};
use workflow::layout::NUMBERS as SHEET;

// A proved loop has to end: the input is read so often at most, so many bytes at a time, and no sample is as long.
const READS: u32 = 1_000_000;

const CHUNK: usize = 65536;

// How many calls there were, by their recorded answers, and how many agree.
#[derive(Default, Drop)]
struct Counts {
    calls: u64,
    next: u64,
    wants: u64,
    refused: u64,
    agree: u64,
    written: u64,
    agree_in_bytes: u64,
}

fn one_more(counter: &mut u64) {
    *counter = counter.saturating_add(1);
}

// The call's answer through the boundary, in numbers, is the recorded one.
fn agrees(sample: &Sample) -> bool {
    let mut made = [0; layout::ANSWER];
    let receipt = host::kuxhoveza_transition(
        &sample.sheet,
        SHEET,
        &sample.call,
        &sample.record,
        &mut made,
    );
    receipt == layout::WRITTEN && made == sample.answer
}

impl Counts {
    // One call more.
    fn add(&mut self, sample: &Sample) {
        one_more(&mut self.calls);
        match sample.answered() {
            Answered::Next => one_more(&mut self.next),
            Answered::Wants => one_more(&mut self.wants),
            Answered::Refused | Answered::Unknown => one_more(&mut self.refused),
        }
        if agrees(sample) {
            one_more(&mut self.agree);
        }
        match coded::judge(sample) {
            Judged::Unwritten => {}
            Judged::Agrees => {
                one_more(&mut self.written);
                one_more(&mut self.agree_in_bytes);
            }
            Judged::Differs => one_more(&mut self.written),
        }
    }
}

fn main(rt: HostRuntime) -> io::Result<()> {
    let mut digits = Digits::default();
    let mut sample = Sample::new();
    let mut counts = Counts::default();
    let mut input = rt.stdin();
    let mut chunk = [0; CHUNK];
    for _ in 0..READS {
        let size = input.read(&mut chunk)?;
        if size == 0 {
            break;
        }
        for byte in &chunk[..size] {
            let ended = digits.take(*byte).and_then(|number| sample.take(number));
            if ended == Some(Kind::Answer) {
                counts.add(&sample);
            }
        }
    }
    let Counts {
        calls,
        next,
        wants,
        refused,
        agree,
        written,
        agree_in_bytes,
    } = counts;
    println!(rt;
        "{calls} calls: {next} next records, {wants} wants, {refused} refusals; {agree} agree"
    )?;
    println!(rt; "{written} of them in bytes; {agree_in_bytes} agree")?;
    Ok(())
}

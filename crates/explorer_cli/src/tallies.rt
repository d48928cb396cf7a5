// What the lists of transcripts come to.
ghost use Rattle.std.specs.Prelude.{◌≡◌, ◌<◌, ◌^◌, sum_by};
ghost use Rattle.explorer_cli.specs.Tallies.{scenarios_in, ends_in, sum_in};

use session_rules::{Reply, Transcript};

/// Of lists that end floors: how many scenarios they have, and how many there are.
#[derive(Clone, Copy)]
pub struct Tally {
    pub shown: u64,
    pub ended: u64,
}

/// What the lists of these transcripts come to.
pub fn tally_of(transcripts: &[Transcript]) -> Tally
    requires shown { sum_in scenarios_in transcripts.now < 2 ^ 64 }
    requires ended { sum_in ends_in transcripts.now < 2 ^ 64 }
    ensures shown { result.shown ≡ sum_in scenarios_in transcripts.now }
    ensures ended { result.ended ≡ sum_in ends_in transcripts.now }
{
    let mut shown = 0;
    let mut ended = 0;
    for transcript in transcripts {
        let tally = tally_of_replies(transcript.replies.replies());
        shown += tally.shown;
        ended += tally.ended;
    }
    Tally { shown, ended }
}

// What the lists among these replies come to.
fn tally_of_replies(replies: &[Reply]) -> Tally
    requires shown { sum_by scenarios_in replies.now < 2 ^ 64 }
    requires ended { sum_by ends_in replies.now < 2 ^ 64 }
    ensures shown { result.shown ≡ sum_by scenarios_in replies.now }
    ensures ended { result.ended ≡ sum_by ends_in replies.now }
{
    let mut shown = 0;
    let mut ended = 0;
    for reply in replies {
        shown += scenarios_in(reply);
        ended += ends_in(reply);
    }
    Tally { shown, ended }
}

// How many scenarios the reply lists, where it ends its floor.
fn scenarios_in(reply: &Reply) -> u64
    ensures { result ≡ scenarios_in reply.now }
{
    match reply {
        Reply::All { scenarios } => scenarios.scenarios().len() as u64,
        _ => 0,
    }
}

// Whether the reply is such a list, as a number.
fn ends_in(reply: &Reply) -> u64
    ensures { result ≡ ends_in reply.now }
{
    match reply {
        Reply::All { .. } => 1,
        _ => 0,
    }
}

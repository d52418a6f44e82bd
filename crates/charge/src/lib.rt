// A circuit with the waves that it starts from: rules 3 to 12, which every call that plays samples tries first, the rows that it plays with,
// and what it hands back where it is turned away.
#![tactic(auto)]

ghost use Rattle.std.specs.Prelude.{◌≡◌, Err, None, OnOk};
ghost use Rattle.circuit.specs.Numbers.{handed};
ghost use Rattle.circuit.specs.Run.{sound_wave, stored_waves_rule};
ghost use Rattle.circuit.specs.Promises.{Charges};
ghost use Rattle.laws.specs.Accepted.{Sized};
ghost use Rattle.laws.specs.Numbered.{numbered};

use circuit::{Checked, Part, Prepared, Progress, ROWS, Record, Refusal, State, in_wave_limit};

// A reactive row's wave is in its limit, and any other row's is 0.
fn sound_wave(p: Part, w: i32) -> bool
    ensures { result ≡ sound_wave p w }
{
    match p {
        Part::Leaf(e) if e.is_reactive() => in_wave_limit(w),
        _ => w == 0,
    }
}

// The lowest row at fault; blank rows are looked at too. A goal about a lent record does not see its arrays' lengths: a caller learns them here.
// `find` is the search that the rules share: what is left is what a fault is and what it is called.
fn stored_waves(r: &Record, state: &State) -> Result<(), Refusal>
    ensures told { handed result ≡ numbered 12 (stored_waves_rule r.now state.now.waves) }
    ensures sized { Sized r.now }
{
    match (0..ROWS).find(|j| !sound_wave(r.row(*j).part, state.waves[*j])) {
        Some(j) => Err(Refusal::Waves(j as u8)),
        None => Ok(()),
    }
}

// The rules over any record at all, and the rows that set-up prepares, where 12 refuses too.
pub fn check(r: &Record, state: &State) -> Checked
    ensures charges { Charges (record { circuit = r.now; waves = state.now.waves }) result }
    ensures sized { OnOk result.answer (Sized r.now) }
{
    let blank = Prepared {
        resistance: 0.0,
        ratio: 0,
    };
    match setup::set_up(r) {
        Err(refusal) => Checked {
            answer: Err(refusal),
            rows: [blank; ROWS],
        },
        Ok(rows) => {
            let checked = Checked {
                answer: Ok(()),
                rows,
            };
            match stored_waves(r, state) {
                Ok(()) => checked,
                Err(refusal) => Checked {
                    answer: Err(refusal),
                    ..checked
                },
            }
        }
    }
}

// What a call hands back that is done or refused before its first sample.
pub fn turned_away(answer: Result<(), Refusal>, state: State) -> Progress
    ensures { result ≡ record { answer = answer; done = 0; segment = None; state = state } }
{
    Progress {
        answer,
        done: 0,
        segment: None,
        state,
    }
}

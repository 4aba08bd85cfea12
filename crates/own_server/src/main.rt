//! How a program of one's own serves a page: it makes the page of its text, settles data as it comes, renders what that
//! makes ready, and sends it, without a settling script on disk.
#![tactic(auto)]

ghost use Rattle.std.specs.Prelude.{◌≡◌, OnOk, IfOk, Ok, true};
ghost use Rattle.jsx_syntax.specs.Rules.{IsApp};
ghost use Rattle.request_laws.specs.Works.{WorksStand};
ghost use Rattle.request_state.specs.Committing.{CommitsPiece};
ghost use Rattle.request_state.specs.Core.{core_of};

use fizz_outside::{Sink, StdSink};
use fizz_piece::{Options, Piece, Plan, render_piece};
use fizz_text::{OutOfMemory, Text};
use jsx_check::check;
use jsx_lex::lex;
use jsx_syntax::{App, parse};
use request_laws::laws_of_standing_works;
use request_state::State;
use settle_script::read_script;
use std::alloc::Global;
use std::process::ExitCode;

const PAGE: &str = r#"function Title() { const title = use("title"); return <h1>{title}</h1>; }
function News() { const news = use("news"); return <ul>{news.map((n) => <li>{n}</li>)}</ul>; }
function App() { return <main><Title/><Suspense fallback={<p>Loading</p>}><News/></Suspense></main>; }
"#;

/// What the page waits for, in the order in which it comes.
const DATA: &[u8] =
    br#"[{"resolve":"title","value":"Today"},{"resolve":"news","value":["One","Two"]}]"#;

/// Why the page isn't served.
#[derive(Drop)]
enum Failure {
    Page,
    Data,
    Output,
    OutOfMemory,
}

impl From<OutOfMemory> for Failure {
    fn from(_e: OutOfMemory) -> Failure {
        Failure::OutOfMemory
    }
}

fn main(rt: HostRuntime) -> ExitCode {
    let mut out = StdSink::new(rt.stdout());
    match serve(rt.alloc(), &mut out) {
        Ok(()) => ExitCode::SUCCESS,
        Err(_) => ExitCode::FAILURE,
    }
}

fn serve<S: Sink>(alloc: Global, out: &mut S) -> Result<(), Failure> {
    let app = app_of(alloc, PAGE)?;
    let Ok(data) = read_script(alloc, DATA) else {
        return Err(Failure::Data);
    };
    let options = Options {
        prefix: Text::fixed(""),
        progressive: 12_800,
        chunk: 2_048,
    };
    let Ok(plan) = Plan::new(alloc, &app, data.outcomes(), &options) else {
        return Err(Failure::Page);
    };
    stream(alloc, plan, out)
}

/// The page that a text is.
fn app_of(alloc: Global, text: &str) -> Result<App, Failure>
    ensures { IfOk result IsApp }
{
    let Ok(tokens) = lex(alloc, text.as_bytes()) else {
        return Err(Failure::Page);
    };
    let Ok(file) = parse(alloc, tokens.as_slice(), text.as_bytes()) else {
        return Err(Failure::Page);
    };
    match check(alloc, file) {
        Ok(app) => Ok(app),
        Err(_) => Err(Failure::Page),
    }
}

/// Sends what needs no data, then after each datum what it makes ready, and then what is left.
fn stream<S: Sink>(alloc: Global, plan: Plan<'_>, out: &mut S) -> Result<(), Failure> {
    laws_of_standing_works();
    let mut state = State::new(alloc, plan)?;
    go_on(alloc, &mut state, out)?;
    'data: for _datum in 0..plan.outcomes.len() {
        // A server waits here until its next datum is there.
        settle(&mut state);
        go_on(alloc, &mut state, out)?;
    }
    finish(alloc, &mut state, out)
}

fn settle(state: &mut State<'_>)
    requires { WorksStand state.old.plan (core_of state.old) }
    ensures works { WorksStand state.old.plan (core_of state.new) }
    ensures plan { state.new.plan ≡ state.old.plan }
{
    laws_of_standing_works();
    match state.settle() {
        Some(_) => {}
        None => {}
    }
}

/// Renders all that can be rendered, and sends what is ready.
fn go_on<S: Sink>(alloc: Global, state: &mut State<'_>, out: &mut S) -> Result<(), Failure>
    requires { WorksStand state.old.plan (core_of state.old) }
    ensures works { OnOk result (WorksStand state.old.plan (core_of state.new)) }
    ensures plan { state.new.plan ≡ state.old.plan }
{
    render(alloc, state)?;
    send(alloc, state, out)?;
    Ok(())
}

/// Claims works, renders each, and has its piece taken, until nothing can be claimed.
fn render<'a>(alloc: Global, state: &mut State<'a>) -> Result<(), OutOfMemory>
    requires { WorksStand state.old.plan (core_of state.old) }
    ensures works { OnOk result (WorksStand state.old.plan (core_of state.new)) }
    ensures plan { state.new.plan ≡ state.old.plan }
{
    'works: for _work in 0..u64::MAX {
        if !render_one(alloc, state)? {
            return Ok(());
        }
    }
    Err(OutOfMemory)
}

fn render_one<'a>(alloc: Global, state: &mut State<'a>) -> Result<bool, OutOfMemory>
    requires { WorksStand state.old.plan (core_of state.old) }
    ensures works { OnOk result (WorksStand state.old.plan (core_of state.new)) }
    ensures plan { state.new.plan ≡ state.old.plan }
{
    laws_of_standing_works();
    let plan = state.plan();
    let Some(work) = state.claim() else {
        return Ok(false);
    };
    let Ok(piece) = render_piece(alloc, &plan, work) else {
        return Err(OutOfMemory);
    };
    commit(alloc, state, piece)
}

fn commit<'a>(alloc: Global, state: &mut State<'a>, piece: Piece<'a>) -> Result<bool, OutOfMemory>
    ensures taken { OnOk result
        (CommitsPiece state.old.plan.outcomes.now piece.entry (core_of state.old) (core_of state.new)) }
    ensures plan { state.new.plan ≡ state.old.plan }
{
    match state.commit(alloc, piece) {
        Ok(()) => Ok(true),
        Err(_) => Err(OutOfMemory),
    }
}

/// Sends what a flush appends, and tells whether something is left.
fn send<S: Sink>(alloc: Global, state: &mut State<'_>, out: &mut S) -> Result<bool, Failure>
    requires { WorksStand state.old.plan (core_of state.old) }
    ensures works { OnOk result (WorksStand state.old.plan (core_of state.new)) }
    ensures plan { state.new.plan ≡ state.old.plan }
{
    laws_of_standing_works();
    let flushed = state.flush(alloc, 0)?;
    match out.write_all(&state.transcript()[flushed.from..]) {
        Ok(()) => Ok(flushed.more),
        Err(_) => Err(Failure::Output),
    }
}

/// What waits for what never came fails, with its fallback in its place, and all is sent.
fn finish<S: Sink>(alloc: Global, state: &mut State<'_>, out: &mut S) -> Result<(), Failure>
    requires { WorksStand state.old.plan (core_of state.old) }
{
    laws_of_standing_works();
    if state.close(alloc).is_err() {
        return Err(Failure::Data);
    }
    'flushes: for _flush in 0..u32::MAX {
        if !send(alloc, state, out)? {
            return Ok(());
        }
    }
    Ok(())
}

//! A session whose history stands in proofs, for as long as a program's `Work` works with it.

ghost use Rattle.std.specs.Prelude.{◌≡◌, None, IfOk};
ghost use Rattle.ymx_hub.specs.Booked.{config_of};
ghost use Rattle.ymx_seats.specs.Transcripts.{IsNew};
ghost use Rattle.ymx_seats.specs.Views.{IsNewcomer};
ghost use Rattle.ymx_session.specs.NewSessions.{new_fault};
ghost use Rattle.ymx_connect.specs.Pumping.{HasRead, HasWritten, HasClosed, HasWorked, HaveMet, InOneHistory};
ghost use Rattle.ymx_connect.specs.Settings.{with_first};

use crate::connection::{Connection, OwnedInlet, OwnedOutlet, Shut};
use crate::error::Error;
use crate::host::{Host, Runtime};
use crate::pumps::{Pumped, READ_BUFFER, ReadsOn, WRITE_BUFFER, WritesOn, discard};
use crate::session::Session;
use crate::work::Work;
use std::marker::Brand;
use std::snapshot::Snapshot;
use std::thread;
use std::thread::PromisedHandle;
use ymx_connect::PumpWhy;
use ymx_hub::{Hub, Undrained};
use ymx_model::{Config, Role};
use ymx_seats::{Naming, NewJournal, Parked, Seat, Witnessed};
use ymx_session::Session as Core;

/// What a program's `Work` answered, how the session ended after it, and what its bytes came from and went to.
#[derive(Clone, Copy, Debug, PartialEq, Eq, Drop)]
pub struct Worked<T, I, O> {
    /// What the `Work` answered.
    pub answer: T,
    /// Whether nothing was due before the session was closed, so that all that was written to streams and had credit went
    /// out. `Undrained` where something was due, and nothing went out any more.
    pub drained: Result<(), Undrained>,
    /// Why the read pump ended: with `End`, `Device` or `Broken`.
    pub read: PumpWhy,
    /// How many bytes the session took. The count stays at the greatest `u64`.
    pub read_bytes: u64,
    /// The reader, after what was read.
    pub reader: I,
    /// Why the write pump ended: with `End` or `Device`.
    pub written: PumpWhy,
    /// How many bytes the writer took. The count stays at the greatest `u64`.
    pub written_bytes: u64,
    /// The writer, after what was written.
    pub writer: O,
}

/// Runs a session over a connection while `work` works with it, in this thread. Once it has answered, it waits until nothing is due,
/// closes the session, and waits until the peer has ended its side: there is no timeout.
///
/// It fails as `Session::over` does. `work` did not run then, and no byte was sent.
pub fn with_history<W: Host, I: OwnedInlet, O: OwnedOutlet, S: Shut, T: Drop, K: Work<W, T> + Drop>(
    rt: W,
    connection: Connection<I, O, S>,
    role: Role,
    config: Config,
    work: K,
) -> Result<Worked<T, I, O>, Error>
    ensures may { IfOk result (λ _. new_fault role config ≡ None) }
    // The work, both pumps and the close of the session, before which nothing was due or something was in vain, stand in one history.
    ensures told { IfOk result (λ worked. InOneHistory role (with_first role config) (HasWorked role (with_first role config) (λ seen. K.Keeps work role (with_first role config) seen worked.answer) worked.drained) (HasRead (I.failures connection.reader) (I.failures worked.reader) (I.remaining connection.reader) (I.remaining worked.reader) worked.read_bytes worked.read) (HasWritten role (with_first role config) (O.failures connection.writer) (O.failures worked.writer) (O.contents connection.writer) (O.contents worked.writer) (O.is_ended worked.writer) worked.written_bytes worked.written)) }
{
    let machine = Core::new(rt.alloc(), role, config)?;
    let journal = NewJournal::new(rt.alloc())?;
    run_named::<Brand, W, I, O, S, T, K>(rt, connection, machine, journal, work)
}

/// The same, by the name that the journal has.
fn run_named<
    J: Naming + Send + Sync + 'static,
    W: Host,
    I: OwnedInlet,
    O: OwnedOutlet,
    S: Shut,
    T: Drop,
    K: Work<W, T> + Drop,
>(
    rt: W,
    connection: Connection<I, O, S>,
    machine: Core,
    journal: NewJournal,
    work: K,
) -> Result<Worked<T, I, O>, Error>
    requires new { IsNew machine }
    requires named { (journal ≡ J.table) × (machine.role ≡ J.role) × (config_of machine ≡ J.config) }
    ensures told { IfOk result (λ worked. InOneHistory J.role J.config (HasWorked J.role J.config (λ seen. K.Keeps work J.role J.config seen worked.answer) worked.drained) (HasRead (I.failures connection.reader) (I.failures worked.reader) (I.remaining connection.reader) (I.remaining worked.reader) worked.read_bytes worked.read) (HasWritten J.role J.config (O.failures connection.writer) (O.failures worked.writer) (O.contents connection.writer) (O.contents worked.writer) (O.is_ended worked.writer) worked.written_bytes worked.written)) }
{
    let hub = Hub::<Witnessed<J>>::witnessed(rt.alloc(), machine, journal)?;
    let session = Session::without_pumps(rt, hub, connection.shutter)?;
    let caller = session.parked()?;
    let writing = write_beside(&session, connection.writer)?;
    let reading = match read_beside(&session, connection.reader) {
        Ok(reading) => reading,
        Err(error) => {
            drop(session);
            let _ = writing.join(&rt);
            return Err(error);
        }
    };
    let done = work_at(&session, caller.into_seat(rt.alloc()), work);
    let written = writing.join(&rt);
    let read = reading.join(&rt);
    Ok(told_by(&session, done, read, written))
}

/// The thread of the read pump of this session.
fn read_beside<J: Naming + Send + Sync + 'static, W: Host, S: Shut, I: OwnedInlet>(
    session: &Session<W, S, Witnessed<J>>,
    reader: I,
) -> Result<PromisedHandle<Pumped<Witnessed<J>, I>, ReadsOn<I>>, Error>
    ensures { IfOk result (λ thread. thread.promise.before.value ≡ reader) }
{
    let before = Snapshot::of(&reader);
    let purger = session.parked()?;
    let pump = session.pump(reader, READ_BUFFER, &session.ends.reading)?;
    match thread::spawn_with(
        &session.rt,
        ReadsOn { before },
        move || -> Pumped<Witnessed<J>, I>
            requires { IsNewcomer pump.seat.number pump.seat.seen }
        { pump.read(purger) },
    ) {
        Ok(thread) => Ok(thread),
        Err(_) => Err(session.without_thread(&session.ends.reading)),
    }
}

/// The thread of the write pump of this session.
fn write_beside<J: Naming + Send + Sync + 'static, W: Host, S: Shut, O: OwnedOutlet>(
    session: &Session<W, S, Witnessed<J>>,
    writer: O,
) -> Result<PromisedHandle<Pumped<Witnessed<J>, O>, WritesOn<O>>, Error>
    ensures { IfOk result (λ thread. thread.promise.before.value ≡ writer) }
{
    let before = Snapshot::of(&writer);
    let pump = session.pump(writer, WRITE_BUFFER, &session.ends.writing)?;
    match thread::spawn_with(
        &session.rt,
        WritesOn { before },
        move || -> Pumped<Witnessed<J>, O>
            requires { IsNewcomer pump.seat.number pump.seat.seen }
        { pump.write() },
    ) {
        Ok(thread) => Ok(thread),
        Err(_) => Err(session.without_thread(&session.ends.writing)),
    }
}

/// What a program did with a session up to its end: what it answered, whether nothing was due before it was closed, and what
/// its caller has seen.
type Done<J, T> = (T, Result<(), Undrained>, Parked<Witnessed<J>>);

/// What a program does with a session at this seat, which has made no call. Then it waits until nothing is due, and closes the
/// session.
fn work_at<J: Naming + Send + Sync, W: Runtime, S: Shut, T: Drop, K: Work<W, T> + Drop>(
    session: &Session<W, S, Witnessed<J>>,
    caller: Seat<Witnessed<J>>,
    work: K,
) -> Done<J, T>
    requires fresh { IsNewcomer caller.number caller.seen }
    ensures { HasWorked J.role J.config (λ seen. K.Keeps work J.role J.config seen result.0) result.1 result.2 }
{
    let mut seat = caller;
    let answer = work.run(session, &mut seat);
    let drained = drain_and_close(session, &mut seat);
    (answer, drained, seat.into_parked())
}

/// Waits until nothing is due, and then closes the session by this seat. `Undrained` where something was due, and nothing
/// goes out any more.
fn drain_and_close<J: Naming, W: Runtime, S: Shut>(
    session: &Session<W, S, Witnessed<J>>,
    seat: &mut Seat<Witnessed<J>>,
) -> Result<(), Undrained>
    ensures { HasClosed J.role J.config seat.old seat.new result }
{
    let drained = session.hub.drain(&session.rt, seat);
    let _ = session.hub.close(&session.rt, seat);
    drained
}

/// What a program answered after which the session was closed, how both pumps ended, and their devices. It shows the whole
/// history to the seats of all three.
#[tactic(auto, using(crate::proofs::PumpEnds::have_met))]
fn told_by<J: Naming, W: Runtime, S: Shut, T: Drop, I: Drop, O: Drop>(
    session: &Session<W, S, Witnessed<J>>,
    done: Done<J, T>,
    read: Pumped<Witnessed<J>, I>,
    written: Pumped<Witnessed<J>, O>,
) -> Worked<T, I, O>
    ensures met { HaveMet J.role J.config done.2 read.parked written.parked }
    ensures worked { result ≡ record { answer = done.0; drained = done.1; read = read.why; read_bytes = read.moved; reader = read.device; written = written.why; written_bytes = written.moved; writer = written.device } }
{
    let alloc = session.rt.alloc();
    let (answer, drained, parked) = done;
    let mut one = parked.into_seat(alloc);
    let mut other = read.parked.into_seat(alloc);
    let mut third = written.parked.into_seat(alloc);
    session
        .hub
        .meet_three(&session.rt, &mut one, &mut other, &mut third);
    one.history();
    discard(one);
    discard(other);
    discard(third);
    Worked {
        answer,
        drained,
        read: read.why,
        read_bytes: read.moved,
        reader: read.device,
        written: written.why,
        written_bytes: written.moved,
        writer: written.device,
    }
}

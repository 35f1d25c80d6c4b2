// The C face: the functions of include/sumpquince.h, which says in words what each of them answers. A slice is a pointer and a length there, and
// a struct is handed back by value. Nothing is decided here: the answers of the crates below are put in C's shapes.

#![tactic(auto)]

ghost use Rattle.std.specs.Prelude.{◌≡◌, length};
ghost use Rattle.rules.specs.Rules.{base};
ghost use Rattle.rules.specs.Reading.{read, refusal};
ghost use Rattle.rules.specs.Answers.{no_refusal, view, judge, numbers_of_judgement, write, bytes_of_writing, over};
ghost use Rattle.rules.specs.Striking.{strike_out};
ghost use Rattle.rules.specs.Mending.{mend, bytes_of_mending, kinds_of_mending, lines_of_mending};
ghost use Rattle.mender.specs.Answer.{rooms_of};
ghost use Rattle.session.specs.Session.{given_back, kept_taken, started, taken, verdicts_taken};
ghost use Rattle.link.specs.Link.{close, feed, holding, lent_of, stopped_by};
ghost use Rattle.pad.specs.Face.{closing_face, declared_face, refusal_face, reading_face, view_face, totals_face, judgement_face, written_face, wrote_face, mended_face, session_face};

use link::{Closing, Link};
use places::Declared;
use rules::{Refusal, Totals};
use session::Session;

#[repr(C)]
#[derive(Clone, Copy)]
pub struct SumpquinceRefusal {
    pub number: u32,
    pub line: u32,
    pub field: u32,
}

#[repr(C)]
#[derive(Clone, Copy)]
pub struct SumpquinceReading {
    pub refusal: SumpquinceRefusal,
    pub records: u64,
    pub respelt: u64,
}

#[repr(C)]
#[derive(Clone, Copy)]
pub struct SumpquinceView {
    pub refusal: SumpquinceRefusal,
    pub start: u64,
    pub length: u64,
    pub listed: u64,
}

#[repr(C)]
#[derive(Clone, Copy)]
pub struct SumpquinceJudgement {
    pub refusal: SumpquinceRefusal,
    pub credited: u64,
    pub voids: u64,
    pub duplicates: u64,
    pub errors: u64,
    pub points: u64,
    pub squares: u64,
    pub exchanges: u64,
    pub countries: u64,
    pub squarebonus: u64,
    pub exchangebonus: u64,
    pub countrybonus: u64,
    pub total: u64,
    pub modes: [u64; judge::MODES],
}

#[repr(C)]
#[derive(Clone, Copy)]
pub struct SumpquinceWritten {
    pub refusal: SumpquinceRefusal,
    pub length: u64,
}

#[repr(C)]
#[derive(Clone, Copy)]
pub struct SumpquinceMended {
    pub refusal: SumpquinceRefusal,
    pub length: u64,
    pub changes: u64,
}

#[repr(C)]
#[derive(Clone, Copy)]
pub struct SumpquinceDeclared {
    pub squarebonus: u32,
    pub squaremultiplier: u32,
    pub exchangebonus: u32,
    pub exchangemultiplier: u32,
    pub countrybonus: u32,
    pub countrymultiplier: u32,
}

// Nothing is refused.
fn no_refusal() -> SumpquinceRefusal
    ensures { result ≡ refusal_face no_refusal }
{
    SumpquinceRefusal {
        number: 0,
        line: 0,
        field: 0,
    }
}

impl From<Refusal> for SumpquinceRefusal {
    ghost from_gives = { λ r face. face ≡ refusal_face r };

    #[tactic(auto, unfolding(crate::specs::Face::refusal_face))]
    fn from(r: Refusal) -> SumpquinceRefusal {
        SumpquinceRefusal {
            number: r.number,
            line: r.line,
            field: r.field,
        }
    }
}

fn totals_face(refusal: SumpquinceRefusal, t: Totals) -> SumpquinceJudgement
    ensures { result ≡ totals_face refusal t }
{
    let modes = t.modes;
    let numbers = judge::mode_numbers(modes);
    SumpquinceJudgement {
        refusal: refusal,
        credited: t.credited,
        voids: t.voids,
        duplicates: t.duplicates,
        errors: t.errors,
        points: t.points,
        squares: t.squares,
        exchanges: t.exchanges,
        countries: t.countries,
        squarebonus: t.squarebonus,
        exchangebonus: t.exchangebonus,
        countrybonus: t.countrybonus,
        total: t.total,
        modes: numbers,
    }
}

#[unsafe(no_mangle)]
pub extern "C" fn sumpquince_read(log: &[u8]) -> SumpquinceReading
    ensures { result ≡ reading_face (read base log.now) }
{
    match reader::read(log) {
        Ok(read) => SumpquinceReading {
            refusal: no_refusal(),
            records: read.records as u64,
            respelt: read.heading.respelt as u64,
        },
        Err(r) => SumpquinceReading {
            refusal: SumpquinceRefusal::from(r),
            records: 0,
            respelt: 0,
        },
    }
}

#[unsafe(no_mangle)]
pub extern "C" fn sumpquince_view(log: &[u8], keyword: usize) -> SumpquinceView
    ensures { result ≡ view_face (view base keyword log.now) }
{
    match places::view(log, keyword) {
        Ok(seen) => SumpquinceView {
            refusal: no_refusal(),
            start: seen.start as u64,
            length: seen.length as u64,
            listed: u64::from(seen.listed),
        },
        Err(r) => SumpquinceView {
            refusal: SumpquinceRefusal::from(r),
            start: 0,
            length: 0,
            listed: 0,
        },
    }
}

#[unsafe(no_mangle)]
pub extern "C" fn sumpquince_judge(log: &[u8], verdicts: &mut [u8]) -> SumpquinceJudgement
    ensures answer { result ≡ judgement_face (judge base (length verdicts.old) log.now) }
    ensures slice { verdicts.new ≡ over (numbers_of_judgement (judge base (length verdicts.old) log.now)) verdicts.old }
{
    match judge::judge(log, verdicts) {
        Ok(t) => totals_face(no_refusal(), t),
        Err(r) => totals_face(SumpquinceRefusal::from(r), judge::no_totals()),
    }
}

// How long what was written is, or the refusal.
fn written_face(w: Result<usize, Refusal>) -> SumpquinceWritten
    ensures { result ≡ wrote_face w }
{
    match w {
        Ok(n) => SumpquinceWritten {
            refusal: no_refusal(),
            length: n as u64,
        },
        Err(r) => SumpquinceWritten {
            refusal: SumpquinceRefusal::from(r),
            length: 0,
        },
    }
}

#[unsafe(no_mangle)]
pub extern "C" fn sumpquince_write(log: &[u8], out: &mut [u8]) -> SumpquinceWritten
    ensures answer { result ≡ written_face (write base (length out.old) log.now) }
    ensures slice { out.new ≡ over (bytes_of_writing (write base (length out.old) log.now)) out.old }
{
    written_face(writer::write(log, out))
}

#[unsafe(no_mangle)]
pub extern "C" fn sumpquince_strike(log: &[u8], struck: &[u8], out: &mut [u8]) -> SumpquinceWritten
    ensures answer { result ≡ written_face (strike_out base (length out.old) struck.now log.now) }
    ensures slice { out.new ≡ over (bytes_of_writing (strike_out base (length out.old) struck.now log.now)) out.old }
{
    written_face(striker::strike(log, struck, out))
}

#[unsafe(no_mangle)]
pub extern "C" fn sumpquince_mend(
    log: &[u8],
    out: &mut [u8],
    kinds: &mut [u8],
    lines: &mut [u32],
) -> SumpquinceMended
    ensures answer { result ≡ mended_face (mend base (rooms_of out.old kinds.old lines.old) log.now) }
    ensures text { out.new ≡ over (bytes_of_mending (mend base (rooms_of out.old kinds.old lines.old) log.now)) out.old }
    ensures kinds { kinds.new ≡ over (kinds_of_mending (mend base (rooms_of out.old kinds.old lines.old) log.now)) kinds.old }
    ensures lines { lines.new ≡ over (lines_of_mending (mend base (rooms_of out.old kinds.old lines.old) log.now)) lines.old }
{
    match mender::mend(log, out, kinds, lines) {
        Ok(mended) => SumpquinceMended {
            refusal: no_refusal(),
            length: mended.length as u64,
            changes: mended.changes as u64,
        },
        Err(r) => SumpquinceMended {
            refusal: SumpquinceRefusal::from(r),
            length: 0,
            changes: 0,
        },
    }
}

// # The session, which is handed over by its address: its numbers are those of `session::Session`

impl From<SumpquinceDeclared> for Declared {
    ghost from_gives = { λ d face. face ≡ declared_face d };

    #[tactic(auto, unfolding(crate::specs::Face::declared_face))]
    fn from(d: SumpquinceDeclared) -> Declared {
        Declared {
            squarebonus: d.squarebonus as u64,
            squaremultiplier: d.squaremultiplier as u64,
            exchangebonus: d.exchangebonus as u64,
            exchangemultiplier: d.exchangemultiplier as u64,
            countrybonus: d.countrybonus as u64,
            countrymultiplier: d.countrymultiplier as u64,
        }
    }
}

#[unsafe(no_mangle)]
pub extern "C" fn sumpquince_session_start(
    session: &mut Session,
    declared: SumpquinceDeclared,
) -> SumpquinceRefusal
    ensures { (session.new ≡ (started base session.old (declared_face declared)).session)
        × (result ≡ refusal_face (started base session.old (declared_face declared)).refusal) }
{
    let t = session::started(*session, Declared::from(declared));
    *session = t.session;
    SumpquinceRefusal::from(t.refusal)
}

#[unsafe(no_mangle)]
pub extern "C" fn sumpquince_session_take(
    session: &mut Session,
    line: &[u8],
    verdicts: &mut [u8],
    kept: &mut [u8],
) -> SumpquinceRefusal
    ensures { (session.new ≡ (taken base session.old line.now verdicts.old kept.old).session)
        × (verdicts.new ≡ verdicts_taken base session.old line.now verdicts.old kept.old)
        × (kept.new ≡ kept_taken base session.old line.now verdicts.old kept.old)
        × (result ≡ refusal_face (taken base session.old line.now verdicts.old kept.old).refusal) }
{
    let t = session::taken(*session, line, verdicts, kept);
    *session = t.session;
    SumpquinceRefusal::from(t.refusal)
}

#[unsafe(no_mangle)]
pub extern "C" fn sumpquince_session_give_back(
    session: &mut Session,
    verdicts: &[u8],
    kept: &[u8],
) -> SumpquinceRefusal
    ensures { (session.new ≡ (given_back base session.old verdicts.now kept.now).session)
        × (result ≡ refusal_face (given_back base session.old verdicts.now kept.now).refusal) }
{
    let t = session::given_back(*session, verdicts, kept);
    *session = t.session;
    SumpquinceRefusal::from(t.refusal)
}

#[unsafe(no_mangle)]
pub extern "C" fn sumpquince_session_totals(session: Session) -> SumpquinceJudgement
    ensures { result ≡ session_face session }
{
    totals_face(no_refusal(), session::totals(session))
}

// # The packet link

fn closing_face(c: Closing) -> SumpquinceJudgement
    ensures { result ≡ closing_face c }
{
    totals_face(SumpquinceRefusal::from(c.refusal), c.totals)
}

#[unsafe(no_mangle)]
pub extern "C" fn sumpquince_link_open(link: &mut Link)
    ensures { link.new ≡ stopped_by (refusal 0 0 0) }
{
    *link = link::opened();
}

#[unsafe(no_mangle)]
pub extern "C" fn sumpquince_link_feed(
    link: &mut Link,
    bytes: &[u8],
    verdicts: &mut [u8],
    worked: &mut [u8],
) -> SumpquinceRefusal
    ensures { (link.new ≡ (feed base (holding link.old verdicts.old worked.old) bytes.now).link)
        × (verdicts.new ≡ (feed base (holding link.old verdicts.old worked.old) bytes.now).verdicts)
        × (worked.new ≡ (feed base (holding link.old verdicts.old worked.old) bytes.now).worked)
        × (result ≡ refusal_face (feed base (holding link.old verdicts.old worked.old) bytes.now).link.refusal) }
{
    let t = link::fed(*link, bytes, verdicts, worked);
    *link = t;
    SumpquinceRefusal::from(t.refusal)
}

#[unsafe(no_mangle)]
pub extern "C" fn sumpquince_link_close(
    link: &mut Link,
    verdicts: &[u8],
    worked: &[u8],
) -> SumpquinceJudgement
    ensures { (link.new ≡ (close base (lent_of (length verdicts.now) (length worked.now)) link.old).link)
        × (result ≡ closing_face (close base (lent_of (length verdicts.now) (length worked.now)) link.old)) }
{
    let t = link::closed(*link, verdicts, worked);
    *link = t.link;
    closing_face(t)
}

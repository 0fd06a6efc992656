// Reports of stream 9 (E4 R1-7.6; 02, request 2): those that wait while a message is being sent or held, how many were dropped, and the
// ten bytes that the one under way shows. When a report is due, when it starts and which number it takes is crate `exchange`.
//
// No public function has a `requires`: each answers for every input, and its `ensures` is an equation with a definition of `specs/`.
#![tactic(auto)]

ghost use Rattle.std.specs.Prelude.{◌≡◌};
ghost use Rattle.reports.specs.Reports.{added, no_report, no_reports, oldest, reports_in_range, showing, without_oldest};

// "Up to 8 reports wait".
const MOST_WAITING: usize = 8;

// A report: its function, and the ten header bytes that it shows.
#[derive(Clone, Copy)]
pub struct Report {
    pub function: u8,
    pub header: [u8; 10],
}

#[derive(Clone, Copy)]
pub struct Reports {
    // What the report under way shows.
    pub shown: [u8; 10],
    // How many wait: they are the first of the eight, the oldest at 0.
    pub count: usize,
    pub waiting: [Report; 8],
    // How many were dropped since the start.
    pub dropped: u32,
}

// A slot in which none waits.
fn no_report() -> Report
    ensures { result ≡ no_report }
{
    Report {
        function: 0,
        header: [0; 10],
    }
}

// At a start.
pub fn none() -> Reports
    ensures { result ≡ no_reports }
{
    Reports {
        shown: [0; 10],
        count: 0,
        waiting: [no_report(); MOST_WAITING],
        dropped: 0,
    }
}

// A report waits behind those that wait already; a ninth is dropped and counted, as far as the count goes.
#[tactic(auto, unfolding(crate::specs::Reports::added, crate::specs::Reports::one_more))]
pub fn added(reports: Reports, report: Report) -> Reports
    ensures { result ≡ Rattle.reports.specs.Reports.added reports report }
{
    if reports.count < MOST_WAITING {
        let mut waiting = reports.waiting;
        waiting[reports.count] = report;
        Reports {
            count: reports.count + 1,
            waiting,
            ..reports
        }
    } else {
        Reports {
            dropped: reports.dropped.saturating_add(1),
            ..reports
        }
    }
}

// The oldest that waits.
pub fn oldest(reports: Reports) -> Report
    ensures { result ≡ Rattle.reports.specs.Reports.oldest reports }
{
    reports.waiting[0]
}

// The oldest waits no more, and the others move up.
#[tactic(auto, unfolding(crate::specs::Reports::without_oldest, crate::specs::Reports::less_one))]
pub fn without_oldest(reports: Reports) -> Reports
    ensures { result ≡ without_oldest reports }
{
    let mut waiting = reports.waiting;
    waiting.copy_within(1.., 0);
    waiting[MOST_WAITING - 1] = no_report();
    Reports {
        count: reports.count.saturating_sub(1),
        waiting,
        ..reports
    }
}

// The report under way shows this header.
#[tactic(auto, unfolding(crate::specs::Reports::showing))]
pub fn showing(reports: Reports, header: [u8; 10]) -> Reports
    ensures { result ≡ Rattle.reports.specs.Reports.showing reports header }
{
    Reports {
        shown: header,
        ..reports
    }
}

// Whether the count of those that wait is in its range (docs/STATE.md).
#[tactic(auto, unfolding(crate::specs::Reports::reports_in_range))]
pub fn in_range(reports: Reports) -> bool
    ensures { result ≡ reports_in_range reports }
{
    reports.count <= MOST_WAITING
}

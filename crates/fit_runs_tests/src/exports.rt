// Outputs of a table and of JSON that take every byte and fail at their flush.

use crate::failing::Failing;
use crate::output::ONE_MESSAGE;
use crate::reading::Pieces;
use fit_files::{ExportForm, ReportFault, export_input, table_input};
use fit_table::{DeveloperColumns, Layout};
use std::alloc::Global;

const TABLE: &[u8] = b"type,time_created_s\r\n4,1000000000\r\n";

const JSON: &[u8] =
    b"{\"header\":14,\"protocol\":\"1.0\",\"profile\":100,\"data\":18}\n{\"number\":0,\"message\":0,\"name\":\"file_id\",\"fields\":{\"type\":4,\"time_created\":1000000000},\"developer\":[]}\n{\"messages\":1}\n";

// The bytes of a file of one message.
fn one_message() -> Pieces<'static> {
    Pieces {
        rest: &ONE_MESSAGE,
        step: usize::MAX,
        calls: usize::MAX,
    }
}

// An output whose flush after so many others fails.
fn failing_after(alloc: Global, flushes: usize) -> Failing {
    let mut out = Failing::new(alloc, usize::MAX, usize::MAX);
    out.flushes = flushes;
    out
}

#[test]
fn a_table_that_is_not_flushed_is_reported(rt: HostRuntime) {
    let layout = Layout {
        message: 0,
        fields: &[0, 4],
        raw: false,
        utc: false,
        profile: false,
        developer: DeveloperColumns::Without,
    };
    for (flushes, reported) in [(0, Err(ReportFault::Output)), (1, Ok(()))] {
        let mut out = failing_after(rt.alloc(), flushes);
        let done = table_input(rt.alloc(), &mut one_message(), 100, &layout, None, &mut out);
        assert_eq!(&rt; done, reported);
        assert_eq!(&rt; out.held.as_slice(), TABLE);
    }
}

#[test]
fn json_that_is_not_flushed_is_reported(rt: HostRuntime) {
    for (flushes, reported) in [(0, Err(ReportFault::Output)), (1, Ok(()))] {
        let mut out = failing_after(rt.alloc(), flushes);
        let form = ExportForm::Json {
            profile: false,
            utc: false,
        };
        let done = export_input(rt.alloc(), &mut one_message(), 100, form, &mut out);
        assert_eq!(&rt; done, reported);
        assert_eq!(&rt; out.held.as_slice(), JSON);
    }
}

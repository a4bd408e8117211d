//! The text of a line.
ghost use Rattle.std.specs.Prelude.{◌≡◌, ◌+◌, ◌<◌, ◌≤◌, ◌++◌, [], length};
ghost use Rattle.std.specs.Fmt.{decimal};
ghost use Rattle.generated_logs.specs.Logs.{level_of, line_of, stamp_at, stamp_of_seconds, time_words, worker_words};

use crate::line::Line;

/// Adds the date and the time of so many seconds after the start of 2023-11-14.
fn push_seconds(line: &mut Line, seconds: u32)
    requires none { line.old ≡ [] }
    requires two_days { seconds < 172800 }
    ensures text { line.new ≡ stamp_of_seconds seconds }
    ensures length { length line.new ≡ 19 }
{
    line.push(b"2023-11-");
    line.push_two(14 + seconds / 86_400);
    line.push(b" ");
    line.push_two(seconds % 86_400 / 3_600);
    line.push(b":");
    line.push_two(seconds % 3_600 / 60);
    line.push(b":");
    line.push_two(seconds % 60);
}

/// Adds the stamp of a line.
fn push_stamp(line: &mut Line, i: u32)
    requires none { line.old ≡ [] }
    requires most { i ≤ 1000000 }
    ensures text { line.new ≡ stamp_at i }
    ensures length { length line.new ≡ 23 }
{
    push_seconds(line, 80_000 + i / 100);
    line.push(b",");
    line.push_three(i % 100 * 10);
}

/// Adds a number of three digits at most.
fn push_number(line: &mut Line, number: u32)
    requires small { number < 1000 }
    requires room { length line.old + 3 ≤ 64 }
    ensures text { line.new ≡ line.old ++ decimal number }
    ensures length { length line.new ≤ length line.old + 3 }
{
    let mut digits = itoa::Buffer::new();
    line.push(digits.format(number).as_bytes());
}

/// The level of a line, by its task.
fn level(task: u32) -> &'static [u8]
    ensures text { result.now ≡ level_of task }
    ensures length { length result.now ≡ 4 }
{
    if task % 10 == 3 { b"WARN" } else { b"INFO" }
}

/// Adds who does the task of a line.
fn push_worker(line: &mut Line, log: u32, task: u32)
    requires stamp { length line.old ≤ 23 }
    requires log { log ≤ 3 }
    requires task { task < 1000 }
    ensures text { line.new ≡ line.old ++ worker_words log task }
    ensures length { length line.new ≤ 48 }
{
    line.push(b" ");
    line.push(level(task));
    line.push(b" worker_");
    push_number(line, log);
    line.push(b" task_");
    push_number(line, task);
}

/// Adds how long the task of a line took, and the newline.
fn push_time(line: &mut Line, i: u32, task: u32)
    requires words { length line.old ≤ 48 }
    ensures { line.new ≡ line.old ++ time_words i task }
{
    line.push(b" took ");
    push_number(line, i % 60);
    line.push(b".");
    push_number(line, task % 10);
    line.push(b" s\n");
}

/// A line of a log.
pub(crate) fn line_of(number: u32, log: u32, i: u32) -> Line
    requires log { log ≤ 3 }
    requires most { i ≤ 1000000 }
    ensures { result ≡ line_of number log i }
{
    let task = (u64::from(number) + 7 * u64::from(i) + 13 * u64::from(log)) % 1_000;
    let mut line = Line::new();
    push_stamp(&mut line, i);
    push_worker(&mut line, log, task as u32);
    push_time(&mut line, i, task as u32);
    line
}

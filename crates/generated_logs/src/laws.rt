//! What follows from the definition of the generated logs: the law is the contract of a function that
//! does nothing.
ghost use Rattle.generated_logs.specs.Laws.{LogsHaveLines};

/// Each of the four logs has as many lines as it is made with, all of them short and with a newline.
pub fn logs_have_lines()
    ensures { LogsHaveLines }
{}

//! Laws of what bytes begin with.
ghost use Rattle.std.specs.Prelude.{◌≡◌, ◌<◌, ◌++◌, ℕ, List, length};
ghost use Rattle.wb_http.specs.Requests.{Taken, Short, Takes};
ghost use Rattle.wb_http.specs.Fronts.{request_limit};
ghost use Rattle.wb_http.specs.Laws.{IsDecided, with_more};

/// Bytes begin with one thing alone.
pub fn one_answer()
    ensures { (bytes : List ℕ) (t u : Taken) → Takes bytes t → Takes bytes u → t ≡ u }
{}

/// What is decided stays decided, whatever bytes follow.
pub fn stays_decided()
    ensures { (bytes more : List ℕ) (taken : Taken) → Takes bytes taken → IsDecided taken → Takes (bytes ++ more) (with_more taken more) }
{}

/// Bytes that are less than a request are few.
pub fn less_is_short()
    ensures { (bytes : List ℕ) → Takes bytes Short → length bytes < request_limit }
{}

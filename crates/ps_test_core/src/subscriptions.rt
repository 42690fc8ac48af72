// One subscription. A line has a moment and what is done at it, after the leases that are over failed. Messages that go
// out stand as number, lease and failures, tickets as number and lease, and behind a ticket the seconds of a new deadline.
mod begun;
mod playing;
mod texts;
mod transcripts;

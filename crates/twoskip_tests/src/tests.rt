// Twoskip files over a disk in memory: made, looked through, and opened after stops and failures.
mod files;
mod opening;
mod sessions;

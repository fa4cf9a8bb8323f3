// Databases of both kinds are rewritten afresh.
mod failing;
mod flat;
mod twoskips;

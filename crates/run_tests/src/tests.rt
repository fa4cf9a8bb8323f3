// Whole runs on twoskip files: what they print and leave, and what a stop leaves.
mod alike;
mod converting;
mod exercising;
mod files;
mod limits;
mod repacking;
mod rows;
mod runs;
mod scripting;
mod stopped_scripts;
mod stops;

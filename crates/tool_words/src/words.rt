// The first word names the tool.
ghost use Rattle.std.specs.Prelude.{◌≡◌, ◌⊎◌, IfOk, None, Some, Err, map, string_bytes};
ghost use Rattle.tool_words.specs.JobOf.{job_of};
ghost use Rattle.tool_words.specs.declared.jobs.WordFault.TheVariants.{Usage, NoMemory as NoRoom};

use crate::{Job, WordFault, database, folder};
use std::alloc::Global;

/// The job that the words stand for. They are a command line without the program's own name. Want
/// of memory may come in place of either answer.
pub fn job(alloc: Global, words: &[String]) -> Result<Job, WordFault>
    ensures job { IfOk result (λ job. job_of (map string_bytes words.now) ≡ Some job) }
    ensures usage { result ≡ Err Usage → job_of (map string_bytes words.now) ≡ None }
    ensures refused { job_of (map string_bytes words.now) ≡ None
        → (result ≡ Err Usage) ⊎ (result ≡ Err NoRoom) }
{
    let Some(tool) = words.first() else {
        return Err(WordFault::Usage);
    };
    match tool.as_str() {
        "cyr_dbtool" => database::dbtool(alloc, words),
        "cvt_cyrusdb" => database::convert(alloc, words),
        "reconstruct" => folder::reconstruct(alloc, words),
        "unexpunge" => folder::unexpunge(alloc, words),
        "ipurge" => folder::purge(alloc, words),
        "chk_cyrus" => folder::check(alloc, words),
        _ => Err(WordFault::Usage),
    }
}

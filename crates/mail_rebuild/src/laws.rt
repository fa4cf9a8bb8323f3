// A law of the definitions.
ghost use Rattle.std.specs.Prelude.{◌≡◌, List};
ghost use Rattle.base_devices.specs.CrashImages.{Image};
ghost use Rattle.base_devices.specs.SpoolCalls.{MessageFile};
ghost use Rattle.mail_rebuild.specs.Rebuilds.{AreContents, Contents};

/// The files of a folder and an old index have one list of messages by rising uid, one of odd names by their bytes, and
/// one of uids. So the report and the new index are functions of the files, the old index, the time and the options.
pub fn contents_are_one()
    ensures { (files : List MessageFile) (old : Image) (one other : Contents) →
        AreContents files old one → AreContents files old other → one ≡ other }
{}

// That the promises of the program hold of a device on which nothing was kept yet.
ghost use Rattle.std.specs.Prelude.{ℕ, List};
ghost use Rattle.blob_device.specs.Timeline.{Timeline};
ghost use Rattle.archives.specs.Changes.{Asked, Replied};
ghost use Rattle.archive_service.specs.RunLaws.{IsServed, RunLaws};
ghost use Rattle.archive_service.specs.declared.replies.End.{End};
ghost use Rattle.archive_service.specs.declared.settings.Settings.{Settings};
ghost use Rattle.archive_program.specs.Program.{program_filing};
ghost use Rattle.archive_program.specs.EmptyLaws.{EmptyLaws};

/// What follows of a call of the program, of the states that its promise speaks of: what was synced outlasts every crash, a run without faults and refusals is done, or
/// memory was short, and a run over what a crash left goes on from what was submitted by then. It does nothing.
pub fn run_laws()
    ensures { (settings : Settings) (items : ℕ) (old new : Timeline) (commands : List Asked)
        (marks : List ℕ) (faults_old faults_new : ℕ) (replies : List Replied) (end : End)
        (served : IsServed (program_filing settings items) settings.write_buffer
        settings.write_buffer old new commands marks faults_old faults_new replies end)
        → RunLaws (program_filing settings items) settings.write_buffer settings.write_buffer
        old new commands marks faults_old faults_new replies end served }
{}

/// An empty device has nothing pending, and holds a lawful image that is empty. It does nothing.
pub fn an_empty_device_may_be_served()
    ensures { EmptyLaws }
{}

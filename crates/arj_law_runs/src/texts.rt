// Lines in form: what each says of a run can be written, and read back.
ghost use Rattle.arj_law_runs.specs.forms.Labels.{RunsSayLabels, RunsSayNames};
ghost use Rattle.arj_law_runs.specs.forms.Nodes.{RunsNameNodes};
ghost use Rattle.arj_law_runs.specs.forms.Numbers.{RunsNumberActions};
ghost use Rattle.arj_law_runs.specs.forms.World.{RunsSayInForm};

/// In each run in form, wherever disks stop, with all crashes and restarts, the number of each line's event has 32 bits; and each line that no
/// part of a node says is in form: a frame that is sent has a number below its limit, a sender that is a node, or nobody's where it is junk,
/// and a node as its receiver; a frame that is got, void or dropped was sent; a node halts or is armed that the header has; and a refusal has
/// one of the numbers of its table. It does nothing when it runs.
pub fn world_lines_are_in_form()
    ensures { RunsSayInForm }
{}

/// In each run of a header in form, wherever disks stop, with all crashes and restarts, each node that a line names is one of the header's: who
/// says it, who answered or didn't, who is bound, and which store is included or excluded. Left out are the nodes of Uids, what is shown of
/// disks, and the store that an abort names since naming lists it already. It does nothing when it runs.
pub fn lines_name_nodes()
    ensures { RunsNameNodes }
{}

/// In each run in form, wherever disks stop, with all crashes and restarts, from any start, each label that a line says is in form, a letter and
/// letters or digits behind it: it is that of an action that began before, or of the one that begins, with the label of its event. So a line
/// is in form that says beside it at most a node: of a commit that was called or is done, of an end, and of what was given up or lost. It
/// does nothing when it runs.
pub fn labels_are_in_form()
    ensures labels { RunsSayLabels }
    ensures lines { RunsSayNames }
{}

/// In each run, wherever disks stop, with all crashes and restarts, from any start, each action that began is of a node that is there, of an
/// incarnation that isn't after the one on that node's disk, and has at most the number 4,096: as many labels a run gives, and a node has no
/// more actions at work. It does nothing when it runs.
pub fn actions_are_numbered()
    ensures { RunsNumberActions }
{}

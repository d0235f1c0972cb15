ghost use Rattle.std.specs.Prelude.{List};
ghost use Rattle.std.specs.Global.{Vec};
ghost use Rattle.callcycle.specs.declared.call.Call.{Call};
ghost use Rattle.callcycle.specs.Calls.{HasNoCycle, HasDepth};

/// No call stands in a cycle exactly where the functions have depths that fall along each call between them, below their count.
pub fn depth_laws()
    ensures falls { (functions : List (Vec Call)) → HasNoCycle functions → HasDepth functions }
    ensures free { (functions : List (Vec Call)) → HasDepth functions → HasNoCycle functions }
{}

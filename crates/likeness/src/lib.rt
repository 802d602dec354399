// States in specs/, and proves, that drawing and flat net behave alike; there is no code to it.
#![tactic(auto)]
